ghost use Rattle.std.specs.Prelude.{◌≡◌, true, map, is_some, option_map, IfOk};
ghost use Rattle.std.specs.List.{list_any};
ghost use Rattle.std.specs.Option.{option_map_or};
ghost use Rattle.policy_core.specs.Policies.{applies_to, policy_of, fits, is_above, chosen};

use crate::pattern::Pattern;
use std::alloc::{AllocError, Global};
use std::rc::Rc;

/// What a policy applies to: its `apply-to`.
#[derive(Clone, Copy, Debug, PartialEq, Eq)]
pub enum Apply {
    /// `all`: exchanges and queues.
    All,
    /// `exchanges`.
    Exchanges,
    /// `queues`: queues of every type.
    Queues,
    /// `classic_queues`.
    Classic,
    /// `quorum_queues`.
    Quorum,
    /// `streams`.
    Streams,
}

/// What an object is, as far as policies ask.
#[derive(Clone, Copy, Debug, PartialEq, Eq)]
pub enum ObjectKind {
    /// An exchange.
    Exchange,
    /// A classic queue.
    Classic,
    /// A quorum queue.
    Quorum,
}

/// What decides between the policies of a virtual host.
#[derive(Clone, PartialEq, Eq, Drop)]
pub struct PolicyText {
    /// The policy's name.
    pub name: String,
    /// The pattern that is searched for in objects' names.
    pub pattern: Rc<Pattern>,
    /// What it applies to.
    pub apply: Apply,
    /// The greatest priority wins.
    pub priority: i64,
}

impl Apply {
    /// Whether policies that say so apply to objects of the kind.
    pub fn applies_to(self, kind: ObjectKind) -> bool
        ensures { result ≡ applies_to self kind }
    {
        match self {
            Apply::All => true,
            Apply::Exchanges => kind == ObjectKind::Exchange,
            Apply::Queues => kind != ObjectKind::Exchange,
            Apply::Classic => kind == ObjectKind::Classic,
            Apply::Quorum => kind == ObjectKind::Quorum,
            Apply::Streams => false,
        }
    }
}

impl PolicyText {
    /// Whether the policy applies to objects of the kind and its pattern is found in the name.
    #[tactic(auto, unfolding(crate::specs::Policies::fits))]
    fn fits(&self, alloc: Global, kind: ObjectKind, name: &str) -> Result<bool, AllocError>
        ensures { IfOk result (λ answer. answer ≡ fits kind name.now (policy_of self.now)) }
    {
        if self.apply.applies_to(kind) {
            self.pattern.found(alloc, name)
        } else {
            Ok(false)
        }
    }

    /// Whether the policy stands above the other one: by its priority, and then by its name.
    fn is_above(&self, other: &PolicyText) -> bool
        ensures { result ≡ is_above (policy_of self.now) (policy_of other.now) }
    {
        let by_priority = self.priority.cmp(&other.priority);
        by_priority.then(other.name.cmp(&self.name)).is_gt()
    }

    /// Whether the policy stands above the best so far, if there is one.
    fn replaces(&self, best: Option<(usize, &PolicyText)>) -> bool
        ensures { result ≡ option_map_or
            (λ best. is_above (policy_of self.now) (policy_of best.1.now)) best.entry true }
    {
        match best {
            None => true,
            Some((_, other)) => self.is_above(other),
        }
    }
}

/// The place of the policy that applies to the object of this kind and name: of those that fit the one of the greatest
/// priority, and of several such the one of the least name. Fails only by memory.
pub fn choose(
    alloc: Global,
    list: &[PolicyText],
    kind: ObjectKind,
    name: &str,
) -> Result<Option<usize>, AllocError>
    ensures chosen { IfOk result (λ place. place ≡ chosen (map policy_of list.now) kind name.now) }
    ensures none { IfOk result (λ place.
        is_some place ≡ list_any (fits kind name.now) (map policy_of list.now)) }
{
    let mut best: Option<(usize, &PolicyText)> = None;
    for (place, policy) in list.iter().enumerate() {
        let fits = policy.fits(alloc, kind, name)?;
        if fits && policy.replaces(best) {
            best = Some((place, policy));
        }
    }
    match best {
        Some((place, _)) => Ok(Some(place)),
        None => Ok(None),
    }
}
