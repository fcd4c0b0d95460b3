//! What stands at the head of a page for a browser.
ghost use Rattle.std.specs.Prelude.{◌≡◌, IsTrue, IsFalse, MatchOption};
ghost use Rattle.status_serving.specs.Headings.{WritesRefresh};

/// What stands at the head of a page for a browser.
#[derive(Clone, Copy)]
pub struct Heading<'a> {
    pub title: &'a str,
    /// The seconds after which a browser asks again; 0: it doesn't.
    pub refresh: u32,
    /// Whether `/marks` is a page where the rows of the list can be marked.
    pub marks: bool,
}

/// The seconds after which a browser asks again that a text writes: 0 (never), or 2 to 3600. `None`
/// where it writes no such number. Own rule.
pub fn refresh_in(text: &str) -> Option<u32>
    ensures { MatchOption result
        ((seconds : _) → WritesRefresh text.now seconds → ⊥) (WritesRefresh text.now) }
{
    match text.parse::<u32>() {
        Ok(seconds) if seconds == 0 || (2..=3600).contains(&seconds) => Some(seconds),
        _ => None,
    }
}
