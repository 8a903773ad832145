ghost use Rattle.std.specs.Prelude.{◌≡◌, ◌+◌, ◌≤◌, ◌==◌, length, nat_eq, IsTrue, IfSome};
ghost use Rattle.std.specs.List.{position, position_or_len, starts_with};
ghost use Rattle.std.specs.Option.{option_copied};
ghost use Rattle.amqp_uri.specs.Uri as uri;

/// What every AMQP URI begins with.
pub(crate) const SCHEME: &[u8] = b"amqp://";

/// Whether the text begins with `amqp://`.
pub(crate) fn has_scheme(text: &[u8]) -> bool
    ensures answer { result ≡ starts_with nat_eq text.now uri.scheme }
    ensures long { IsTrue result → uri.authority_place ≤ length text.now }
{
    text.starts_with(SCHEME)
}

/// The place of the first of this byte.
fn place_of(bytes: &[u8], byte: u8) -> Option<usize>
    ensures { result ≡ position (λ b. b == byte) bytes.now }
{
    bytes.iter().position(|b| *b == byte)
}

/// How many bytes stand before the first of this byte, or all.
#[tactic(auto, using(crate::proofs::PlaceLemmas::place_of))]
pub(crate) fn length_before(bytes: &[u8], byte: u8) -> usize
    ensures place { result ≡ position_or_len (λ b. b == byte) bytes.now }
    ensures within { result ≤ length bytes.now }
{
    place_of(bytes, byte).unwrap_or(bytes.len())
}

/// The place of the first `/`, `?` or `#`.
fn delimiter_place(bytes: &[u8]) -> Option<usize>
    ensures { result ≡ position uri.is_delimiter bytes.now }
{
    bytes
        .iter()
        .position(|b| *b == b'/' || *b == b'?' || *b == b'#')
}

/// How many bytes stand before the first `/`, `?` or `#`, or all.
#[tactic(auto, using(crate::proofs::PlaceLemmas::place_of))]
pub(crate) fn length_before_delimiter(bytes: &[u8]) -> usize
    ensures place { result ≡ position_or_len uri.is_delimiter bytes.now }
    ensures within { result ≤ length bytes.now }
{
    delimiter_place(bytes).unwrap_or(bytes.len())
}

/// The authority, `user:pass@host:port`, of a URI.
#[tactic(auto, unfolding(crate::specs::Uri::authority))]
pub(crate) fn authority(text: &[u8]) -> &[u8]
    requires { uri.authority_place ≤ length text.now }
    ensures part { result.now ≡ uri.authority text.now }
    ensures within { uri.authority_place + length result.now ≤ length text.now }
{
    let rest = &text[SCHEME.len()..];
    &rest[..length_before_delimiter(rest)]
}

/// What stands before the authority's first `@`, or nothing.
#[tactic(auto, unfolding(crate::specs::Uri::user_info))]
fn user_info(authority: &[u8]) -> &[u8]
    ensures part { result.now ≡ uri.user_info authority.now }
    ensures within { length result.now ≤ length authority.now }
{
    let end = length_before(authority, b'@');
    if end < authority.len() {
        &authority[..end]
    } else {
        &[]
    }
}

/// What stands behind the authority's first `@`, or all.
#[tactic(auto, unfolding(crate::specs::Uri::host_port))]
fn host_port(authority: &[u8]) -> &[u8]
    ensures { result.now ≡ uri.host_port authority.now }
{
    let end = length_before(authority, b'@');
    if end < authority.len() {
        &authority[end + 1..]
    } else {
        authority
    }
}

/// The user of a URI, undecoded.
#[tactic(auto, unfolding(crate::specs::Uri::user_part))]
pub(crate) fn user_part(text: &[u8]) -> &[u8]
    requires { uri.authority_place ≤ length text.now }
    ensures part { result.now ≡ uri.user_part text.now }
    ensures within { uri.authority_place + length result.now ≤ length text.now }
{
    let info = user_info(authority(text));
    &info[..length_before(info, b':')]
}

/// The password of a URI, undecoded.
#[tactic(auto, unfolding(crate::specs::Uri::pass_part, crate::specs::Uri::user_part))]
pub(crate) fn pass_part(text: &[u8]) -> &[u8]
    requires { uri.authority_place ≤ length text.now }
    ensures part { result.now ≡ uri.pass_part text.now }
    ensures within { uri.pass_place text.now + length result.now ≤ length text.now + 1 }
{
    let info = user_info(authority(text));
    let end = length_before(info, b':');
    if end < info.len() {
        &info[end + 1..]
    } else {
        &[]
    }
}

/// The host of a URI.
#[tactic(auto, unfolding(crate::specs::Uri::host_part))]
pub(crate) fn host_part(text: &[u8]) -> &[u8]
    requires { uri.authority_place ≤ length text.now }
    ensures { result.now ≡ uri.host_part text.now }
{
    let host_port = host_port(authority(text));
    &host_port[..length_before(host_port, b':')]
}

/// The port of a URI, if it names one.
#[tactic(auto, unfolding(crate::specs::Uri::port_part, crate::specs::Uri::port_behind))]
pub(crate) fn port_part(text: &[u8]) -> Option<&[u8]>
    requires { uri.authority_place ≤ length text.now }
    ensures { option_copied result ≡ uri.port_part text.now }
{
    let host_port = host_port(authority(text));
    let end = length_before(host_port, b':');
    if end < host_port.len() {
        Some(&host_port[end + 1..])
    } else {
        None
    }
}

/// What follows the authority of a URI.
#[tactic(auto, unfolding(crate::specs::Uri::path))]
pub(crate) fn path(text: &[u8]) -> &[u8]
    requires { uri.authority_place ≤ length text.now }
    ensures part { result.now ≡ uri.path text.now }
    ensures place { uri.path_place text.now + length result.now ≡ length text.now }
{
    let end = SCHEME.len() + authority(text).len();
    &text[end..]
}

/// What follows a `/` at the front of the path, if it begins with one.
pub(crate) fn behind_slash(path: &[u8]) -> Option<&[u8]>
    ensures behind { option_copied result ≡ uri.behind_slash path.now }
    ensures length { IfSome result (λ behind. length path.now ≡ 1 + length behind.now) }
{
    match path {
        [b'/', behind @ ..] => Some(behind),
        _ => None,
    }
}

/// The virtual host of a URI, undecoded, if it names one.
#[tactic(auto, unfolding(crate::specs::Uri::vhost_part))]
pub(crate) fn vhost_part(text: &[u8]) -> Option<&[u8]>
    requires { uri.authority_place ≤ length text.now }
    ensures part { option_copied result ≡ uri.vhost_part text.now }
    ensures within { IfSome result (λ vhost. uri.vhost_place text.now + length vhost.now ≤ length text.now) }
{
    match behind_slash(path(text)) {
        None => None,
        Some(behind) => Some(&behind[..length_before_delimiter(behind)]),
    }
}

/// What follows the virtual host of a URI.
#[tactic(auto, unfolding(crate::specs::Uri::rest_part))]
pub(crate) fn rest_part(text: &[u8]) -> &[u8]
    requires { uri.authority_place ≤ length text.now }
    ensures part { result.now ≡ uri.rest_part text.now }
    ensures within { length result.now ≤ length text.now }
{
    let path = path(text);
    match behind_slash(path) {
        None => path,
        Some(behind) => &behind[length_before_delimiter(behind)..],
    }
}
