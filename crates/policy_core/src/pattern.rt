use regex::Regex;
use std::alloc::{AllocError, Global};
use std::marker::Model;
use thiserror::Error;

/// Why a text is no pattern.
#[derive(Clone, Copy, Debug, PartialEq, Eq, Error)]
pub enum PatternFault {
    /// The text is no regular expression, or one that nests deeper than 250.
    #[error("not a regular expression")]
    Bad,
    /// Memory ran out, or the pattern would take more than its limit of ten mebibytes.
    #[error("out of memory")]
    Memory,
}

/// A pattern, built from its text once, and shared from then on.
#[derive(Drop)]
pub struct Pattern {
    regex: Regex,
}

impl Model for Pattern {
    ghost use Rattle.std.specs.Prelude.{◌≡◌, ℕ, List};
    ghost use Rattle.regex.specs.Patterns.{default_config};
    ghost use Rattle.regex.specs.Strings.{regex_source, regex_config, IsReadFromSource};

    ghost Value = { List ℕ };

    ghost view = { λ p. regex_source p.regex };

    ghost invariant = { λ p. (regex_config p.regex ≡ default_config) × IsReadFromSource p.regex };
}

impl Pattern {
    ghost use Rattle.std.specs.Prelude.{◌≡◌, ◌⊎◌, Err, IfOk, IsErr};
    ghost use Rattle.policy_core.specs.Patterns.{IsNoPattern, NestsTooDeep, is_found};

    /// Builds the pattern that the text writes. Memory is also wanting where a pattern would take more than ten
    /// mebibytes.
    pub fn build(alloc: Global, text: &str) -> Result<Pattern, PatternFault>
        ensures text { IfOk result (λ pattern. pattern ≡ text.now) }
        ensures bad { result ≡ Err PatternFault.Bad → IsNoPattern text.now ⊎ NestsTooDeep text.now }
        ensures refused { IsNoPattern text.now ⊎ NestsTooDeep text.now → IsErr result }
    {
        match Regex::new(alloc, text) {
            Ok(regex) => Ok(Pattern { regex }),
            Err(regex::Error::Syntax(_)) => Err(PatternFault::Bad),
            Err(regex::Error::CompiledTooBig) => Err(PatternFault::Memory),
            Err(regex::Error::OutOfMemory) => Err(PatternFault::Memory),
            Err(regex::Error::Internal) => unreachable!(),
        }
    }

    /// The text that the pattern was built from.
    pub fn text(&self) -> &str
        ensures { result.now ≡ self.now }
    {
        self.regex.as_str()
    }

    /// Whether the pattern is found in the name. Fails only by memory.
    pub fn found(&self, alloc: Global, name: &str) -> Result<bool, AllocError>
        ensures { IfOk result (λ found. found ≡ is_found self.now name.now) }
    {
        let mut matcher = self.regex.matcher(alloc)?;
        Ok(matcher.is_match(name))
    }
}

/// Patterns are equal where their texts are.
impl PartialEq for Pattern {
    ghost use Rattle.std.specs.Prelude.{nat_eq};
    ghost use Rattle.std.specs.Cmp.Lexicographic.{pointwise};
    ghost use Rattle.std.specs.Cmp.Rules.{comparing};
    ghost use Rattle.std.proofs.Common.{rules};

    ghost eq = { pointwise nat_eq };

    ghost laws = { Prim.search (comparing, rules) };

    fn eq(&self, other: &Self) -> bool {
        self.text() == other.text()
    }
}

impl Eq for Pattern {
    ghost use Rattle.std.specs.Cmp.Rules.{comparing};
    ghost use Rattle.std.proofs.Common.{rules};

    ghost laws = { Prim.search (comparing, rules) };
}
