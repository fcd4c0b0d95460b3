ghost use Rattle.std.specs.Prelude.{◌≡◌};

use gate_model::Text;
use std::marker::Model;

/// Several texts, in order.
#[derive(Drop)]
pub struct Texts {
    list: Vec<Text>,
}

impl Model for Texts {
    ghost use Rattle.std.specs.Prelude.{ℕ, List};

    ghost Value = { List (List ℕ) };

    ghost view = { λ texts. texts.list.items };
}

impl Texts {
    /// The texts of a list.
    pub fn new(list: Vec<Text>) -> Texts
        ensures { result ≡ list.items }
    {
        Texts { list }
    }

    /// The texts, in order.
    pub fn as_slice(&self) -> &[Text]
        ensures { result.now ≡ self.now }
    {
        self.list.as_slice()
    }
}
