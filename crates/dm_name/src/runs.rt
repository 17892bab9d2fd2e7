ghost use Rattle.std.specs.Prelude.{◌≡◌, ◌≤◌, ◌==◌, length, not};
ghost use Rattle.std.specs.List.{after_last, prefix_len, suffix_len};
ghost use Rattle.dm_name.specs.Clean.{is_loose, is_no_dot, is_separator, is_space};
ghost use Rattle.dm_name.specs.Wish.{path_of};

fn is_separator(byte: u8) -> bool
    ensures { result ≡ is_separator byte }
{
    byte == b'/' || byte == b'\\'
}

/// How many bytes stand behind the last `/` or `\`, or all of them.
fn behind_separators(name: &[u8]) -> usize
    ensures value { result ≡ suffix_len (λ b. not (is_separator b)) name.now }
    ensures within { result ≤ length name.now }
{
    name.iter()
        .rev()
        .take_while(|byte| !is_separator(**byte))
        .count()
}

/// What follows the last `/` or `\`.
pub fn after_separators(name: &[u8]) -> &[u8]
    ensures { result.now ≡ after_last is_separator name.now }
{
    let (_, end) = name.split_at(name.len() - behind_separators(name));
    end
}

/// How many bytes stand behind the last `/`, or all of them.
fn behind_slashes(path: &[u8]) -> usize
    ensures value { result ≡ suffix_len (λ b. not (b == 47)) path.now }
    ensures within { result ≤ length path.now }
{
    path.iter().rev().take_while(|byte| **byte != b'/').count()
}

/// What follows the last `/`.
pub fn after_slashes(path: &[u8]) -> &[u8]
    ensures { result.now ≡ after_last (λ b. b == 47) path.now }
{
    let (_, end) = path.split_at(path.len() - behind_slashes(path));
    end
}

/// How many dots and spaces stand at the end.
pub fn loose_at_end(name: &[u8]) -> usize
    ensures value { result ≡ suffix_len is_loose name.now }
    ensures within { result ≤ length name.now }
{
    name.iter()
        .rev()
        .take_while(|byte| **byte == b'.' || **byte == b' ')
        .count()
}

/// How many spaces stand in front.
pub fn spaces_in_front(name: &[u8]) -> usize
    ensures value { result ≡ prefix_len is_space name.now }
    ensures within { result ≤ length name.now }
{
    name.iter().take_while(|byte| **byte == b' ').count()
}

/// How many bytes stand behind the last dot, or all of them.
pub fn behind_last_dot(name: &[u8]) -> usize
    ensures { result ≡ suffix_len is_no_dot name.now }
{
    name.iter().rev().take_while(|byte| **byte != b'.').count()
}

/// How many bytes stand before the first `?`, or all of them.
fn before_query(target: &[u8]) -> usize
    ensures value { result ≡ prefix_len (λ b. not (b == 63)) target.now }
    ensures within { result ≤ length target.now }
{
    target.iter().take_while(|byte| **byte != b'?').count()
}

/// The path of a request's target.
pub fn path_of(target: &[u8]) -> &[u8]
    ensures { result.now ≡ path_of target.now }
{
    let (path, _) = target.split_at(before_query(target));
    path
}
