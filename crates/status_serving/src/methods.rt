ghost use Rattle.std.specs.Prelude.{◌≡◌};
ghost use Rattle.status_serving.specs.Methods.{body_asked};

/// Whether a method asks for an answer with its body, as GET does, or without it, as HEAD does; None
/// for another method (RFC 9110, section 9.3).
pub fn body_asked(method: &str) -> Option<bool>
    ensures { result ≡ body_asked method.now }
{
    match method {
        "GET" => Some(true),
        "HEAD" => Some(false),
        _ => None,
    }
}
