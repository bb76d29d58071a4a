//! Values of which the last used are kept.

ghost use Rattle.std.specs.Prelude.{◌≡◌, ℕ, ◌≤◌, [], Contains, Some, nat_eq, drop, length, slice_get};
ghost use Rattle.std.specs.Prelude.{option_copied, option_map, IfOk, IfSome, OnOk, OnErr};
ghost use Rattle.std.specs.List.{IsDistinct};
ghost use Rattle.std.specs.Map.{keys_of, lookup};
ghost use Rattle.kept_values.specs.Numbers.{of_number};
ghost use Rattle.kept_values.specs.LastUsed.{AreGiven, HasNumber, put_first, use_first};

use crate::numbered::Numbered;
use crate::rest::Rest;
use crate::row::{bring, fit, put_back};
use std::alloc::{AllocError, Global};
use std::marker::Model;

/// Values under keys, at most `capacity` of them, the last added or used first. A key is never given twice.
///
/// Those added or used in a round, whose numbers go up by one, stand in a row: in the next round each is used again
/// by a step of `used`, and looked for by nothing.
#[derive(Drop)]
pub struct Recent<V: Numbered> {
    capacity: usize,
    given: u64,
    row: Vec<(u64, V)>,
    first: u64,
    used: usize,
    rest: Rest<V>,
}

impl<V: Numbered> Model for Recent<V> {
    ghost use Rattle.std.specs.Prelude.{◌+◌, drop};
    ghost use Rattle.kept_values.specs.Rows.{IsRecent, use_order};
    ghost use Rattle.kept_values.specs.LastUsed.{LastUsed, last_used_code};

    ghost Value = { LastUsed V };

    ghost coded = { last_used_code V.code };

    ghost view = { λ a. record {
      capacity = a.capacity;
      entries = use_order a.row.items a.used a.rest;
      given = a.given;
      turn = a.first + a.used;
      ahead = drop a.used a.row.items;
    } };

    ghost invariant = { λ a. IsRecent V.number_of a.capacity a.given a.first a.used a.row.items a.rest };
}

impl<V: Numbered + Drop> Recent<V> {
    /// Nothing kept yet.
    pub fn new(alloc: Global, capacity: usize) -> Result<Recent<V>, AllocError>
        ensures { IfOk result (λ recent. recent ≡ record { capacity = capacity; entries = []; given = 0; turn = 0; ahead = [] }) }
    {
        let rest = Rest::new(alloc)?;
        Ok(Recent {
            capacity,
            given: 0,
            row: Vec::new(alloc),
            first: 0,
            used: 0,
            rest,
        })
    }

    /// The number of values. No key stands twice, there are at most `capacity`, and each key was given.
    pub fn len(&self) -> usize
        ensures len { result ≡ length self.now.entries }
        ensures distinct { IsDistinct nat_eq (keys_of self.now.entries) }
        ensures fits { length self.now.entries ≤ self.now.capacity }
        ensures given { AreGiven self.now.given self.now.entries }
    {
        self.row.len() + self.rest.len()
    }

    /// Begins a round: it is the turn of the number 0, and the values of the round before lie ahead, as far as
    /// they can be used again one after the other. Want of memory is the only error; then values may be gone.
    pub fn begin(&mut self) -> Result<(), AllocError>
        ensures ok { OnOk result ((self.new.entries ≡ self.old.entries) × (self.new.turn ≡ 0)) }
        ensures fewer { (e : ℕ × V) → Contains self.new.entries e → Contains self.old.entries e }
        ensures capacity { self.new.capacity ≡ self.old.capacity }
    {
        put_back(&mut self.row, self.used, &mut self.rest)?;
        self.used = 0;
        if self.first == 0 {
            return Ok(());
        }
        // A row that doesn't begin with the number 0 isn't followed.
        put_back(&mut self.row, 0, &mut self.rest)?;
        self.first = 0;
        Ok(())
    }

    /// Gives up what lies ahead: it stays, in its order, to be found by number. Takes time by its length. Want of
    /// memory is the only error; then values may be gone.
    pub fn give_up_ahead(&mut self) -> Result<(), AllocError>
        ensures ok { OnOk result (self.new ≡ record self.old { ahead = [] }) }
        ensures fewer { (e : ℕ × V) → Contains self.new.entries e → Contains self.old.entries e }
        ensures capacity { self.new.capacity ≡ self.old.capacity }
    {
        put_back(&mut self.row, self.used, &mut self.rest)
    }

    /// The value that lies ahead next, with its key: the first of those of the number whose turn it is. Takes
    /// constant time.
    pub fn next(&self) -> Option<(u64, &V)>
        ensures next { option_map (λ found. (found.0, found.1.now)) result ≡ slice_get self.now.ahead 0 }
        ensures held { IfSome result (λ found. lookup (nat_eq found.0) self.now.entries ≡ Some found.1.now) }
        ensures first { IfSome result (λ found.
            slice_get (of_number V.number_of self.now.turn self.now.entries) 0 ≡ Some (found.0, found.1.now)) }
    {
        match self.row.get(self.used) {
            None => None,
            Some(held) => Some((held.0, &held.1)),
        }
    }

    /// Uses the value that lies ahead next: it goes first. Takes constant time.
    pub fn use_next(&mut self)
        requires { (e : ℕ × V) × (slice_get self.old.ahead 0 ≡ Some e) }
        ensures { (e : ℕ × V) → slice_get self.old.ahead 0 ≡ Some e
            → self.new ≡ record (use_first e.0 self.old) { ahead = drop 1 self.old.ahead } }
    {
        self.used += 1;
    }

    /// The value under a key, of a number whose turn hasn't passed.
    pub fn get(&self, key: u64) -> Option<&V>
        requires settled { self.now.ahead ≡ [] }
        requires later { (v : V) → lookup (nat_eq key) self.now.entries ≡ Some v → self.now.turn ≤ V.number_of v }
        ensures { option_copied result ≡ lookup (nat_eq key) self.now.entries }
    {
        self.rest.get(key)
    }

    /// How many values have a number whose turn hasn't passed.
    pub fn count(&self, number: u64) -> usize
        requires settled { self.now.ahead ≡ [] }
        requires later { self.now.turn ≤ number }
        ensures { result ≡ length (of_number V.number_of number self.now.entries) }
    {
        self.rest.count(number)
    }

    /// The value at a place among those of a number whose turn hasn't passed, with its key: the last added or
    /// used first.
    pub fn at(&self, number: u64, place: usize) -> Option<(u64, &V)>
        requires settled { self.now.ahead ≡ [] }
        requires later { self.now.turn ≤ number }
        ensures is { option_map (λ found. (found.0, found.1.now)) result
            ≡ slice_get (of_number V.number_of number self.now.entries) place }
        ensures held { IfSome result (λ found. lookup (nat_eq found.0) self.now.entries ≡ Some found.1.now) }
    {
        self.rest.at(number, place)
    }

    /// Uses the value under a key, of the number whose turn it is: it goes first. Want of memory is the only
    /// error, and changes nothing.
    pub fn use_again(&mut self, key: u64) -> Result<(), AllocError>
        requires settled { self.old.ahead ≡ [] }
        requires turn { HasNumber V.number_of key self.old.turn self.old.entries }
        ensures ok { OnOk result (self.new ≡ use_first key self.old) }
        ensures err { OnErr result (self.new ≡ self.old) }
    {
        bring(&mut self.row, &mut self.rest, key)?;
        self.used = self.row.len();
        Ok(())
    }

    /// Puts a value of the number whose turn it is first, and lets go of the last where there are too many. Takes
    /// time by the capacity where a round has more values than that, and else constant time. Want of memory is the
    /// only error but for the last key or number, and changes nothing: the value is let go.
    pub fn add(&mut self, value: V) -> Result<(), AllocError>
        requires settled { self.old.ahead ≡ [] }
        requires turn { V.number_of value ≡ self.old.turn }
        ensures ok { OnOk result (self.new ≡ put_first value self.old) }
        ensures err { OnErr result (self.new ≡ self.old) }
    {
        let number = value.number();
        if self.given == u64::MAX || number == u64::MAX {
            return Err(AllocError);
        }
        if let Err(_failed) = self.row.push((self.given, value)) {
            return Err(AllocError);
        }
        self.given += 1;
        self.first = fit(&mut self.row, self.first, &mut self.rest, self.capacity);
        self.used = self.row.len();
        Ok(())
    }
}
