ghost use Rattle.std.specs.Prelude.{◌≡◌};
ghost use Rattle.operator_commands.specs.Names.{setting_of, service_code, host_code};

/// Whether `passive` enables passive checks.
pub fn setting_of(text: &[u8]) -> Option<bool>
    ensures { result ≡ setting_of text.now }
{
    if text == b"on".as_slice() {
        Some(true)
    } else if text == b"off".as_slice() {
        Some(false)
    } else {
        None
    }
}

/// The return code of a service's state.
pub fn service_code(state: &[u8]) -> Option<i16>
    ensures { result ≡ service_code state.now }
{
    if state == b"OK".as_slice() {
        Some(0)
    } else if state == b"WARNING".as_slice() {
        Some(1)
    } else if state == b"CRITICAL".as_slice() {
        Some(2)
    } else if state == b"UNKNOWN".as_slice() {
        Some(3)
    } else {
        None
    }
}

/// The return code of a host's state.
pub fn host_code(state: &[u8]) -> Option<i16>
    ensures { result ≡ host_code state.now }
{
    if state == b"UP".as_slice() {
        Some(0)
    } else if state == b"DOWN".as_slice() {
        Some(1)
    } else if state == b"UNREACHABLE".as_slice() {
        Some(2)
    } else {
        None
    }
}
