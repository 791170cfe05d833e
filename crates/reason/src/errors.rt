ghost use Rattle.reason.specs.Layers.{card_layer, name_layer, type_layer, link_layer, call_layer};
ghost use Rattle.reason.specs.Numbers.{card_number, name_number, type_number, link_number, call_number};
ghost use Rattle.reason.specs.Words.{card_words, name_words, type_words, link_words, call_words};

use crate::causes::Cause;
use crate::layers::Layer;

// What is wrong with a card's format.
#[derive(Clone, Copy, PartialEq, Eq, Debug)]
pub enum CardError {
    Size = 1, // no record, too many, or a part of one
    Mark = 2, // the mark is unknown
    Padding = 3, // a byte that should be 0 is not
    Reference = 4, // a field names nothing, too early a record or a wrong mark
    Owner = 5, // the record is not named exactly once
    Range = 6, // a number is out of its range, or a name is no identifier
}

// What is wrong with the names of a card.
#[derive(Clone, Copy, PartialEq, Eq, Debug)]
pub enum NameError {
    Redeclared = 10, // a second declaration in a scope, or a second component in a record
    Undeclared = 11, // no declaration here
    Mistaken = 12, // type, variable and function are mistaken for each other
    Circular = 13, // a type declaration reaches itself
    LocalFunction = 14, // a function is declared in a let
    NoBody = 15, // a function without body is none of the outside functions
    NoMain = 16, // no main to run
}

// What is wrong with the types of a card.
#[derive(Clone, Copy, PartialEq, Eq, Debug)]
pub enum TypeError {
    Rule = 20, // a type rule does not hold
    NotLvalue = 21, // an lvalue is wanted
    NotScalar = 22, // an array, a record or a void stands where a value is wanted
    TooLarge = 23, // a type, or all globals together, are too large
    Arguments = 24, // too many parameters, or another number of arguments
}

// What is wrong with a tape or with the codes of a bench unit.
#[derive(Clone, Copy, PartialEq, Eq, Debug)]
pub enum LinkError {
    Size = 1, // too many entries, or a part of one
    Mark = 2, // the mark is not QA
    Padding = 3, // a byte after the request is not 0
    Range = 6, // a length or a count is out of its range
}

// What is wrong with a call of the reader.
#[derive(Clone, Copy, PartialEq, Eq, Debug)]
pub enum CallError {
    NoRun = 41, // there is no run to go on with
    Portion = 42, // the portion of fuel is too large
}

impl Cause for CardError {
    ghost number_of = { card_number };

    ghost layer_of = { card_layer };

    ghost words_of = { card_words };

    fn number(self) -> u8 {
        self as u8
    }

    fn layer(self) -> Layer {
        Layer::Card
    }

    fn words(self) -> &'static str {
        match self {
            CardError::Size => "the card has no record, more than 2,000, or a part of one",
            CardError::Mark => "the mark is unknown",
            CardError::Padding => "a byte that should be 0 is not",
            CardError::Reference =>
                "a field names no record, too early a record or one of the wrong mark",
            CardError::Owner => "the record is not named exactly once",
            CardError::Range => "a number is out of its range, or a name is no identifier",
        }
    }
}

impl Cause for NameError {
    ghost number_of = { name_number };

    ghost layer_of = { name_layer };

    ghost words_of = { name_words };

    fn number(self) -> u8 {
        self as u8
    }

    fn layer(self) -> Layer {
        Layer::Names
    }

    fn words(self) -> &'static str {
        match self {
            NameError::Redeclared => "the name is declared here a second time",
            NameError::Undeclared => "the name has no declaration here",
            NameError::Mistaken => "a type, a variable or a function is taken for another of them",
            NameError::Circular => "the type is declared by way of itself",
            NameError::LocalFunction => "a function is declared inside a let",
            NameError::NoBody => "a function without a body is none of the five outside functions",
            NameError::NoMain =>
                "there is no main to run: a function with a body, no parameter and result int",
        }
    }
}

impl Cause for TypeError {
    ghost number_of = { type_number };

    ghost layer_of = { type_layer };

    ghost words_of = { type_words };

    fn number(self) -> u8 {
        self as u8
    }

    fn layer(self) -> Layer {
        Layer::Types
    }

    fn words(self) -> &'static str {
        match self {
            TypeError::Rule => "the types do not fit",
            TypeError::NotLvalue =>
                "only a variable, an element, a component or what a pointer leads to can stand here",
            TypeError::NotScalar => "a whole array, a whole record or void cannot be a value",
            TypeError::TooLarge => "more than 1,024 cells are needed",
            TypeError::Arguments =>
                "the call has another number of arguments, or the function more than four parameters",
        }
    }
}

impl Cause for LinkError {
    ghost number_of = { link_number };

    ghost layer_of = { link_layer };

    ghost words_of = { link_words };

    fn number(self) -> u8 {
        self as u8
    }

    fn layer(self) -> Layer {
        Layer::Link
    }

    fn words(self) -> &'static str {
        match self {
            LinkError::Size => "the tape has more than 2,000 entries, or a part of one",
            LinkError::Mark => "the mark is not QA",
            LinkError::Padding => "a byte after the request is not 0",
            LinkError::Range => "a length or a count is out of its range",
        }
    }
}

impl Cause for CallError {
    ghost number_of = { call_number };

    ghost layer_of = { call_layer };

    ghost words_of = { call_words };

    fn number(self) -> u8 {
        self as u8
    }

    fn layer(self) -> Layer {
        Layer::Call
    }

    fn words(self) -> &'static str {
        match self {
            CallError::NoRun => "there is no run to go on with: start one first",
            CallError::Portion => "the portion of fuel is over 1,000,000",
        }
    }
}
