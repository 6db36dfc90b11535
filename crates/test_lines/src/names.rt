//! The names of the values that lines make.
ghost use Rattle.std.specs.Prelude.{◌≡◌, ◌⊎◌, [], map, IfErr, OnErr, ok_or, bytes_eq};
ghost use Rattle.std.specs.List.{position};
ghost use Rattle.test_lines.specs.Named.{names_in, named_values, value_named, allocator_of, HaveSameNames};

use crate::faults::{Fault, Why};
use std::alloc::Global;

/// Names and their values.
#[derive(Drop)]
pub struct Names<'a, T> {
    // (Two lists, since a list of pairs of a text and a value with a model can't be proved.)
    words: Vec<&'a str>,
    values: Vec<T>,
}

impl<'a, T: Copy> Names<'a, T> {
    /// No names.
    pub fn new(alloc: Global) -> Self
        ensures names { names_in result ≡ [] }
        ensures values { named_values result ≡ [] }
    {
        Names {
            words: Vec::new(alloc),
            values: Vec::new(alloc),
        }
    }

    /// The allocator of the names.
    pub fn alloc(&self) -> Global
        ensures { result ≡ allocator_of self.now }
    {
        *self.values.allocator()
    }

    /// The names, in the order in which they were first given.
    pub fn words(&self) -> &[&'a str]
        ensures { map (λ w. w.now) result.now ≡ names_in self.now }
    {
        self.words.as_slice()
    }

    /// The values of the names, in the same order.
    pub fn values(&self) -> &[T]
        ensures { result.now ≡ named_values self.now }
    {
        self.values.as_slice()
    }

    // The position of a name.
    fn place(&self, name: &str) -> Option<usize>
        ensures { result ≡ position (λ w. bytes_eq w.now name.now) self.now.words.items }
    {
        self.words.iter().position(|word| *word == name)
    }

    /// The value of a name.
    pub fn get(&self, name: &str) -> Result<T, Fault>
        ensures { result ≡ ok_or (value_named self.now name.now) (Fault.Unreadable Why.NoSuchName) }
    {
        match self.place(name) {
            Some(place) => match self.values.get(place) {
                Some(value) => Ok(*value),
                None => Err(Fault::Unreadable(Why::NoSuchName)),
            },
            None => Err(Fault::Unreadable(Why::NoSuchName)),
        }
    }

    /// Names a value. A name that already has a value is replaced only if `again`. On an error the names are unchanged.
    pub fn bind(&mut self, name: &'a str, value: T, again: bool) -> Result<(), Fault>
        ensures refused { IfErr result (λ e. (e ≡ Fault.Memory)
            ⊎ (e ≡ Fault.Unreadable Why.NameIsTaken) ⊎ (e ≡ Fault.Unreadable Why.NoSuchName)) }
        ensures kept { OnErr result (HaveSameNames self.old self.new) }
    {
        match self.place(name) {
            Some(place) if again => match self.values.get_mut(place) {
                Some(known) => {
                    *known = value;
                    Ok(())
                }
                None => Err(Fault::Unreadable(Why::NoSuchName)),
            },
            Some(_) => Err(Fault::Unreadable(Why::NameIsTaken)),
            None => {
                self.words.reserve(1)?;
                self.values.push(value)?;
                self.words.push_reserved(name);
                Ok(())
            }
        }
    }
}
