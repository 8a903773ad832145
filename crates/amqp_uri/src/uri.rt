ghost use Rattle.std.specs.Prelude.{◌≡◌, ◌≢◌, ◌+◌, ◌-◌, ◌≤◌, min, length, None, Some, true, false, option_map, IfOk, IfErr, OnOk, MatchResult, MatchOption, string_bytes};
ghost use Rattle.std.specs.List.{list_all};
ghost use Rattle.std.specs.Option.{option_copied};
ghost use Rattle.std.specs.Char.{is_ascii_digit};
ghost use Rattle.percent_encoding.specs.Percent.{percent_decode};
ghost use Rattle.amqp_uri.specs.Uri as uri;
ghost use Rattle.amqp_uri.specs.Uri.{uri_fault, user_part, pass_part, host_part, port_part, port_of, vhost_part};

use crate::escape::decode;
use crate::fault::UriFault;
use crate::parts;
use std::alloc::Global;

/// An AMQP URI, decoded.
#[derive(Clone, Debug, PartialEq, Eq, Drop)]
pub struct AmqpUri {
    /// The user name; empty where the URI has none.
    pub user: String,
    /// The password; empty where the URI has none.
    pub pass: String,
    /// The host; empty where the URI has none.
    pub host: String,
    /// The TCP port; 5672 where the URI has none.
    pub port: u16,
    /// The virtual host, if the URI names one: the empty text after a lone `/`.
    pub vhost: Option<String>,
}

/// The TCP port of AMQP.
const DEFAULT_PORT: u16 = 5672;

/// Reads the user and the password.
#[tactic(auto, unfolding(crate::specs::Uri::user_info_fault))]
fn read_user_info(alloc: Global, text: &[u8]) -> Result<(String, String), UriFault>
    requires { uri.authority_place ≤ length text.now }
    ensures user { IfOk result (λ info. string_bytes info.0 ≡ percent_decode (user_part text.now)) }
    ensures pass { IfOk result (λ info. string_bytes info.1 ≡ percent_decode (pass_part text.now)) }
    ensures ok { OnOk result (uri.user_info_fault text.now ≡ None) }
    ensures fault { IfErr result (λ fault. fault ≢ UriFault.Memory → uri.user_info_fault text.now ≡ Some fault) }
{
    let user = parts::user_part(text);
    let pass = parts::pass_part(text);
    let pass_place = parts::SCHEME.len() + user.len() + 1;
    let user = decode(alloc, user, parts::SCHEME.len())?;
    let pass = decode(alloc, pass, pass_place)?;
    Ok((user, pass))
}

/// A byte that a host's name may have.
fn is_host_byte(byte: u8) -> bool
    ensures { result ≡ uri.is_host_byte byte }
{
    byte.is_ascii_alphanumeric() || byte == b'-' || byte == b'.' || byte == b'_'
}

/// Whether the bytes name a host.
fn is_host(host: &[u8]) -> bool
    ensures { result ≡ list_all uri.is_host_byte host.now }
{
    host.iter().all(|byte| is_host_byte(*byte))
}

/// The host that these bytes name.
#[tactic(auto, using(crate::proofs::HostLemmas::host_is_text), unfolding(crate::specs::Uri::host_fault))]
fn host_of(alloc: Global, host: &[u8]) -> Result<String, UriFault>
    ensures text { IfOk result (λ text. string_bytes text ≡ host.now) }
    ensures ok { OnOk result (uri.host_fault host.now ≡ None) }
    ensures fault { IfErr result (λ fault. fault ≢ UriFault.Memory → uri.host_fault host.now ≡ Some fault) }
{
    if !is_host(host) {
        return Err(UriFault::Host);
    }
    match std::str::from_utf8(host) {
        Ok(name) => Ok(String::from_str(alloc, name)?),
        Err(_) => unreachable!(),
    }
}

/// Whether each byte is a decimal digit.
fn are_digits(bytes: &[u8]) -> bool
    ensures { result ≡ list_all is_ascii_digit bytes.now }
{
    bytes.iter().all(|byte| byte.is_ascii_digit())
}

/// The number that these digits write, or 65,536 for each greater one.
fn bounded_decimal(digits: &[u8]) -> u32
    ensures { result ≡ min 65536 (uri.decimal_value digits.now) }
{
    let mut value: u32 = 0;
    for digit in digits {
        value = (10 * value + u32::from(digit.saturating_sub(b'0'))).min(65_536);
    }
    value
}

/// The port that these digits name.
#[tactic(auto, using(crate::proofs::PortLemmas::port_from_digits, crate::proofs::PortLemmas::no_port_from_letters, crate::proofs::PortLemmas::no_port_from_number))]
fn port_number(digits: &[u8]) -> Option<u16>
    ensures { MatchOption result (uri.is_port digits.now ≡ false)
        (λ port. (uri.is_port digits.now ≡ true) × (port ≡ uri.decimal_value digits.now)) }
{
    if !are_digits(digits) {
        return None;
    }
    let value = bounded_decimal(digits);
    if value == 0 || value > 65_535 {
        None
    } else {
        Some(value as u16)
    }
}

/// The port of a URI: 5672 where it names none.
#[tactic(auto, unfolding(crate::specs::Uri::port_of, crate::specs::Uri::port_fault))]
fn port_of(part: Option<&[u8]>) -> Result<u16, UriFault>
    ensures port { IfOk result (λ port. port ≡ uri.port_of (option_copied part.entry)) }
    ensures fault { MatchResult result (λ _. uri.port_fault (option_copied part.entry) ≡ None)
        (λ fault. uri.port_fault (option_copied part.entry) ≡ Some fault) }
{
    match part {
        None => Ok(DEFAULT_PORT),
        Some(digits) => port_number(digits).ok_or(UriFault::Port),
    }
}

/// Reads the host and the port.
#[tactic(auto, unfolding(crate::specs::Uri::host_port_fault))]
fn read_host_port(alloc: Global, text: &[u8]) -> Result<(String, u16), UriFault>
    requires { uri.authority_place ≤ length text.now }
    ensures host { IfOk result (λ found. string_bytes found.0 ≡ host_part text.now) }
    ensures port { IfOk result (λ found. found.1 ≡ uri.port_of (port_part text.now)) }
    ensures ok { OnOk result (uri.host_port_fault text.now ≡ None) }
    ensures fault { IfErr result (λ fault. fault ≢ UriFault.Memory → uri.host_port_fault text.now ≡ Some fault) }
{
    let host = host_of(alloc, parts::host_part(text))?;
    let port = port_of(parts::port_part(text))?;
    Ok((host, port))
}

/// Reads the virtual host, if the URI names one.
#[tactic(auto, unfolding(crate::specs::Uri::vhost_fault))]
fn read_vhost(alloc: Global, text: &[u8]) -> Result<Option<String>, UriFault>
    requires { uri.authority_place ≤ length text.now }
    ensures vhost { IfOk result (λ vhost. option_map string_bytes vhost
        ≡ option_map percent_decode (vhost_part text.now)) }
    ensures ok { OnOk result (uri.vhost_fault (uri.vhost_place text.now) (vhost_part text.now) ≡ None) }
    ensures fault { IfErr result (λ fault. fault ≢ UriFault.Memory
        → uri.vhost_fault (uri.vhost_place text.now) (vhost_part text.now) ≡ Some fault) }
{
    let place = parts::SCHEME.len() + parts::authority(text).len() + 1;
    match parts::vhost_part(text) {
        None => Ok(None),
        Some(vhost) => Ok(Some(decode(alloc, vhost, place)?)),
    }
}

/// Checks that only a query follows the virtual host.
#[tactic(auto, unfolding(crate::specs::Uri::rest_fault))]
fn check_rest(rest: &[u8], place: usize) -> Result<(), UriFault>
    ensures { MatchResult result (λ _. uri.rest_fault place rest.now ≡ None)
        (λ fault. uri.rest_fault place rest.now ≡ Some fault) }
{
    match rest {
        [] => Ok(()),
        [b'?', ..] => Ok(()),
        _ => Err(UriFault::Rest(place)),
    }
}

/// Reads what follows the authority: the virtual host, if the URI names one.
#[tactic(auto, unfolding(crate::specs::Uri::path_fault))]
fn read_path(alloc: Global, text: &[u8]) -> Result<Option<String>, UriFault>
    requires { uri.authority_place ≤ length text.now }
    ensures vhost { IfOk result (λ vhost. option_map string_bytes vhost
        ≡ option_map percent_decode (vhost_part text.now)) }
    ensures ok { OnOk result (uri.path_fault text.now ≡ None) }
    ensures fault { IfErr result (λ fault. fault ≢ UriFault.Memory → uri.path_fault text.now ≡ Some fault) }
{
    let vhost = read_vhost(alloc, text)?;
    let rest = parts::rest_part(text);
    check_rest(rest, text.len() - rest.len())?;
    Ok(vhost)
}

impl AmqpUri {
    /// Reads an AMQP URI, `amqp://[user[:pass]@][host][:port][/vhost][?query]`. The query is read over. The fault is
    /// the first in reading order.
    #[tactic(auto, unfolding(crate::specs::Uri::uri_fault))]
    pub fn read(alloc: Global, text: &str) -> Result<AmqpUri, UriFault>
        ensures user { IfOk result (λ uri. string_bytes uri.user ≡ percent_decode (user_part text.now)) }
        ensures pass { IfOk result (λ uri. string_bytes uri.pass ≡ percent_decode (pass_part text.now)) }
        ensures host { IfOk result (λ uri. string_bytes uri.host ≡ host_part text.now) }
        ensures port { IfOk result (λ uri. uri.port ≡ port_of (port_part text.now)) }
        ensures vhost { IfOk result (λ uri. option_map string_bytes uri.vhost
            ≡ option_map percent_decode (vhost_part text.now)) }

        ensures ok { OnOk result (uri_fault text.now ≡ None) }
        ensures fault { IfErr result (λ fault. fault ≢ UriFault.Memory → uri_fault text.now ≡ Some fault) }
    {
        let text = text.as_bytes();
        if !parts::has_scheme(text) {
            return Err(UriFault::Scheme);
        }
        let (user, pass) = read_user_info(alloc, text)?;
        let (host, port) = read_host_port(alloc, text)?;
        let vhost = read_path(alloc, text)?;
        Ok(AmqpUri {
            user,
            pass,
            host,
            port,
            vhost,
        })
    }
}
