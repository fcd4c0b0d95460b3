ghost use Rattle.std.specs.Prelude.{◌≡◌, ◌<◌, ◌≤◌, ◌+◌, ◌++◌, ◌∷◌, [], List, length, map};
ghost use Rattle.gate_grammar.specs.Arguments.{ArgumentValue};
ghost use Rattle.gate_grammar.specs.Arguments as value;
ghost use Rattle.gate_grammar.specs.Arguments.{value_in, text_in, number_in, code_in};
ghost use Rattle.gate_grammar.specs.inner.Values.{value_of};

use arrayvec::ArrayVec;
use gate_model::Text;
use std::marker::Model;

/// What kind of argument a command takes.
#[derive(Clone, Copy)]
pub enum ArgumentKind {
    /// One byte or more.
    Name,
    /// An unsigned number of 32 bits.
    Number,
    /// A signed number of 16 bits.
    Code,
    /// Any bytes, also none.
    Text,
}

/// An argument of a command.
#[derive(Clone, Copy)]
pub enum Argument<'a> {
    Name(&'a [u8]),
    Number(u32),
    Code(i16),
    Text(&'a [u8]),
}

/// What fills the unused capacity of a list.
impl Default for Argument<'_> {
    fn default() -> Self {
        Argument::Number(0)
    }
}

/// The most arguments of a command.
pub(crate) const ARGUMENTS: usize = 9;

/// The arguments of a command, which contracts see as the list of their values. No memory is taken.
#[derive(Drop)]
pub struct Arguments<'a> {
    items: ArrayVec<Argument<'a>, ARGUMENTS>,
}

impl<'a> Model for Arguments<'a> {
    ghost Value = { List ArgumentValue };

    ghost view = { λ arguments. map value_of arguments.items.items };
}

impl<'a> Arguments<'a> {
    pub(crate) fn new() -> Self
        ensures { result ≡ [] }
    {
        Arguments {
            items: ArrayVec::new(),
        }
    }

    pub(crate) fn push(&mut self, argument: Argument<'a>)
        requires { length self.old < ARGUMENTS }
        ensures { self.new ≡ self.old ++ value_of argument.entry ∷ [] }
    {
        self.items.push(argument);
    }

    /// These arguments and more.
    pub(crate) fn with(mut self, more: &[Argument<'a>]) -> Self
        requires { length self + length more.now ≤ ARGUMENTS }
        ensures { result ≡ self.entry ++ map value_of more.now }
    {
        let _fits = self.items.try_extend_from_slice(more);
        self
    }

    /// These arguments and numbers.
    fn with_numbers(mut self, numbers: &[u32]) -> Self
        requires { length self + length numbers.now ≤ ARGUMENTS }
        ensures { result ≡ self.entry ++ map value.Number numbers.now }
    {
        for number in numbers {
            self.items.push(Argument::Number(*number));
        }
        self
    }

    /// These arguments, numbers, and a comment after its author.
    pub(crate) fn with_comment(self, numbers: &[u32], author: &'a Text, text: &'a Text) -> Self
        requires { length self + length numbers.now + 2 ≤ ARGUMENTS }
        ensures { result ≡ self.entry ++ map value.Number numbers.now
            ++ value.Text author.now ∷ value.Text text.now ∷ [] }
    {
        self.with_numbers(numbers).with(&[
            Argument::Text(author.bytes()),
            Argument::Text(text.bytes()),
        ])
    }

    pub fn as_slice(&self) -> &[Argument<'a>]
        ensures { map value_of result.now ≡ self.now }
    {
        self.items.as_slice()
    }

    /// The argument at an index, from 0, or a number 0 past the end.
    fn get(&self, index: usize) -> Argument<'a>
        ensures { value_of result ≡ value_in self.now index }
    {
        let items = self.items.as_slice();
        if index < items.len() {
            items[index]
        } else {
            Argument::Number(0)
        }
    }

    /// The name or text at an index, from 0; nothing where there is none.
    pub(crate) fn text(&self, index: usize) -> &'a [u8]
        ensures { result.now ≡ text_in self.now index }
    {
        match self.get(index) {
            Argument::Name(text) | Argument::Text(text) => text,
            Argument::Number(_) | Argument::Code(_) => b"",
        }
    }

    /// The number at an index, from 0; 0 where there is none.
    pub(crate) fn number(&self, index: usize) -> u32
        ensures { result ≡ number_in self.now index }
    {
        match self.get(index) {
            Argument::Number(number) => number,
            Argument::Name(_) | Argument::Code(_) | Argument::Text(_) => 0,
        }
    }

    /// The code at an index, from 0; 0 where there is none.
    pub(crate) fn code(&self, index: usize) -> i16
        ensures { result ≡ code_in self.now index }
    {
        match self.get(index) {
            Argument::Code(code) => code,
            Argument::Name(_) | Argument::Number(_) | Argument::Text(_) => 0,
        }
    }
}
