/// What is read next of a gateway's pages.
#[derive(Drop)]
pub enum Next {
    /// The text of a page.
    Page(Vec<u8>),
    /// The gateway shows no page.
    Gone,
    /// The time is over.
    Over,
}
