// The blocks of a vector file: lines of the form `name = value`, ended by a blank line.
ghost use Rattle.std.specs.Prelude.{◌≡◌, ℕ, ◌++◌, ◌∷◌, [], None, Some, IfOk, MatchResult, true};
ghost use Rattle.std.specs.Prelude.{MatchOption, OnOk, OnErr, false, if◌then◌else◌};
ghost use Rattle.std.specs.Option.{option_map};
ghost use Rattle.vector_files.specs.Blocks.{named_value, first_line, value_of, has_name, HasValue};
ghost use Rattle.vector_files.specs.Blocks.{IsNumber, AreNumbers, IsBytes, IsMessage};

use crate::hex;
use anyhow::{Context, anyhow, ensure};
use std::alloc::Global;
use std::collections::BTreeSet;
use std::marker::Model;

/// A line of a block: a name and a value.
#[derive(Drop)]
pub struct Field<'t> {
    name: &'t str,
    value: &'t str,
    line: usize,
}

impl<'t> Model for Field<'t> {
    ghost use Rattle.vector_files.specs.Field.{NamedValue};

    ghost Value = { NamedValue };

    ghost view = { λ f. record { name = f.name.now; value = f.value.now; line = f.line } };
}

impl<'t> Field<'t> {
    /// The name, without white space at its ends.
    pub fn name(&self) -> &'t str
        ensures { result.now ≡ self.now.name }
    {
        self.name
    }

    /// The value, without white space at its ends.
    pub fn value(&self) -> &'t str
        ensures { result.now ≡ self.now.value }
    {
        self.value
    }

    /// The number of the line in its text, from 1.
    pub fn line(&self) -> usize
        ensures { result ≡ self.now.line }
    {
        self.line
    }
}

/// The lines of a block, and the memory that its values are read into.
#[derive(Drop)]
pub struct Block<'t> {
    heap: Global,
    fields: Vec<Field<'t>>,
    /// The fields' names, so that a block of many lines takes in each as fast as a block of few.
    index: BTreeSet<&'t str>,
}

impl<'t> Model for Block<'t> {
    ghost use Rattle.vector_files.specs.Field.{Lines};
    ghost use Rattle.vector_files.specs.Blocks.{AreNamesOf};

    ghost Value = { Lines };

    ghost view = { λ b. b.fields.items };

    ghost invariant = { λ b. AreNamesOf b.index b.fields.items };
}

impl<'t> Block<'t> {
    /// A block without a line.
    pub fn new(heap: Global) -> Block<'t>
        ensures { result ≡ [] }
    {
        Block {
            heap,
            fields: Vec::new(heap),
            index: BTreeSet::new(heap),
        }
    }

    /// The memory that its values are read into.
    pub fn heap(&self) -> Global {
        self.heap
    }

    /// Its lines, in their order.
    pub fn fields(&self) -> &[Field<'t>]
        ensures { result.now ≡ self.now }
    {
        &self.fields
    }

    /// The number of its first line in the text, from 1; 0 if it has none.
    pub fn line(&self) -> usize
        ensures { result ≡ first_line self.now }
    {
        self.fields.first().map_or(0, Field::line)
    }

    /// Takes in a line with its number in the text, from 1. It is an error if the line has no
    /// equals sign, or if the block has the name already.
    pub fn add(&mut self, line: &'t str, number: usize) -> anyhow::Result<()>
        ensures valued { OnOk result (HasValue line.now) }
        ensures once { OnOk result (has_name self.old (named_value line.now number).name ≡ false) }
        ensures ok { OnOk result (self.new ≡ self.old ++ named_value line.now number ∷ []) }
        ensures err { OnErr result (self.new ≡ self.old) }
    {
        let (name, value) = line.split_once('=').context("a line has no equals sign")?;
        let name = name.trim();
        self.fields.reserve(1)?;
        ensure!(self.index.insert(name)?, "the name {name} comes twice");
        self.fields.push(Field {
            name,
            value: value.trim(),
            line: number,
        })?;
        Ok(())
    }

    /// Whether a line has the name.
    pub fn has(&self, name: &str) -> bool
        ensures { result ≡ has_name self.now name.now }
    {
        self.index.contains(name)
    }

    /// The value of a name, if the block has it.
    pub fn text(&self, name: &str) -> Option<&'t str>
        ensures { option_map (λ t. t.now) result ≡ value_of name.now self.now }
    {
        let field = self.fields.iter().find(|field| field.name() == name)?;
        Some(field.value())
    }

    /// The value of a name that the block has to have.
    pub fn required(&self, name: &str) -> anyhow::Result<&'t str>
        ensures { MatchResult result
            (λ t. value_of name.now self.now ≡ Some t.now)
            (λ _. value_of name.now self.now ≡ None) }
    {
        self.text(name).context("a vector lacks a value")
    }

    /// A number below 2^32. It is an error if the block lacks the value, or if it is no such number.
    pub fn number(&self, name: &str) -> anyhow::Result<u32>
        ensures { MatchResult result
            (IsNumber (value_of name.now self.now))
            (λ _. (n : ℕ) → IsNumber (value_of name.now self.now) n → ⊥) }
    {
        Ok(self.required(name)?.parse::<u32>()?)
    }

    /// Numbers with a space between each two.
    pub fn numbers(&self, name: &str) -> anyhow::Result<Vec<u32>>
        ensures { IfOk result (λ v. AreNumbers (value_of name.now self.now) v.items) }
    {
        let mut numbers = Vec::new(self.heap);
        for word in self.required(name)?.split_whitespace() {
            numbers.push(word.parse::<u32>()?)?;
        }
        Ok(numbers)
    }

    /// The message: given in hexadecimal as `message`, or as one byte, `message_fill`, and how often
    /// it comes, `message_length`.
    pub fn message(&self) -> anyhow::Result<Vec<u8>>
        ensures { IfOk result (λ v. IsMessage self.now v.items) }
    {
        if self.text("message").is_some() {
            return self.bytes("message");
        }
        let fill = self.bytes("message_fill")?;
        let byte = fill.first().copied().unwrap_or(0);
        let length = self.number("message_length")? as usize;
        Ok(vec![in self.heap; byte; length]?)
    }

    /// Exactly N bytes, in hexadecimal.
    pub fn array<const N: usize>(&self, name: &str) -> anyhow::Result<[u8; N]>
        ensures { IfOk result (IsBytes (value_of name.now self.now)) }
    {
        let bytes = self.bytes(name)?;
        ensure!(bytes.len() == N, "a value has not {N} bytes");
        let mut array = [0; N];
        array.copy_from_slice(&bytes);
        Ok(array)
    }

    /// Bytes in hexadecimal, as many as there are.
    pub fn bytes(&self, name: &str) -> anyhow::Result<Vec<u8>>
        ensures { IfOk result (λ v. IsBytes (value_of name.now self.now) v.items) }
    {
        hex::decode(self.heap, self.required(name)?)?.context("a value is not hexadecimal")
    }
}
