//! A document of HTML that no text can change: markup is the program's own, and a text is escaped.
#![tactic(auto)]

mod escaping;
mod html;

pub use html::Html;
