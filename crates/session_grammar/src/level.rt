//! The parts of an open sum, and its value.
ghost use Rattle.std.specs.Prelude.{◌≡◌, ◌++◌, ◌∷◌, [], false, IfOk, OnOk};
ghost use Rattle.session_grammar.specs.Grammar.{product_of as product_value, tensor_of as tensor_value, sum_of as sum_value};
ghost use Rattle.session_grammar.specs.ParserSteps.{fresh as fresh_level, push, next_tensor as level_behind_hash, next_part as level_behind_sign, value_of as level_value};

use crate::state::{Call, Level};
use crate::{Expr, Factor, Signed};
use hopf_num::OutOfMemory;
use sqlite_items::Items;
use std::alloc::Global;
use std::mem;

// A product; of one part, that part.
fn product_of(mut factors: Items<Factor>) -> Expr
    ensures { result ≡ product_value factors }
{
    if factors.len() != 1 {
        return Expr::Product(factors);
    }
    match factors.pop() {
        Some(factor) => {
            let Factor { divides: _, value } = factor;
            value
        }
        None => Expr::Product(factors),
    }
}

// A tensor product; of one part, that part.
fn tensor_of(mut parts: Items<Expr>) -> Expr
    ensures { result ≡ tensor_value parts }
{
    if parts.len() != 1 {
        return Expr::Tensor(parts);
    }
    match parts.pop() {
        Some(part) => part,
        None => Expr::Tensor(parts),
    }
}

// A sum; of one part without a sign, that part.
fn sum_of(mut parts: Items<Signed>) -> Result<Expr, OutOfMemory>
    ensures { IfOk result (λ x. x ≡ sum_value parts) }
{
    if parts.len() != 1 {
        return Ok(Expr::Sum(parts));
    }
    match parts.pop() {
        Some(part) => {
            if part.minus {
                parts.push(part)?;
                return Ok(Expr::Sum(parts));
            }
            let Signed { minus: _, value } = part;
            Ok(value)
        }
        None => Ok(Expr::Sum(parts)),
    }
}

impl Level {
    /// A level in which nothing was read but a sign. It takes no memory.
    pub fn fresh(alloc: Global, minus: bool) -> Level
        ensures { result ≡ fresh_level minus }
    {
        Level {
            parts: Items::new(alloc),
            minus,
            tensor: Items::new(alloc),
            factors: Items::new(alloc),
            divides: false,
            call: Call::Group,
        }
    }

    /// One more factor is read.
    pub fn push(&mut self, value: Expr) -> Result<(), OutOfMemory>
        ensures { OnOk result (self.new ≡ push value self.old) }
    {
        let divides = self.divides;
        self.factors.push(Factor { divides, value })?;
        Ok(())
    }

    /// `#` is read.
    pub fn next_tensor(&mut self, alloc: Global) -> Result<(), OutOfMemory>
        ensures { OnOk result (self.new ≡ level_behind_hash self.old) }
    {
        let factors = mem::replace(&mut self.factors, Items::new(alloc));
        self.tensor.push(product_of(factors))?;
        self.divides = false;
        Ok(())
    }

    // The last part, without its sign. Of it the level keeps the sign alone.
    fn take_part(&mut self, alloc: Global) -> Result<Expr, OutOfMemory>
        ensures part { IfOk result (λ x. x ≡ tensor_value (self.old.tensor ++ product_value self.old.factors ∷ [])) }
        ensures rest { OnOk result (self.new ≡ record self.old { tensor = []; factors = []; divides = false }) }
    {
        let factors = mem::replace(&mut self.factors, Items::new(alloc));
        let last = product_of(factors);
        self.divides = false;
        if self.tensor.is_empty() {
            return Ok(last);
        }
        let mut tensor = mem::replace(&mut self.tensor, Items::new(alloc));
        tensor.push(last)?;
        Ok(tensor_of(tensor))
    }

    /// `+` or `-` is read.
    pub fn next_part(&mut self, alloc: Global, is_minus: bool) -> Result<(), OutOfMemory>
        ensures { OnOk result (self.new ≡ level_behind_sign is_minus self.old) }
    {
        let minus = self.minus;
        let value = self.take_part(alloc)?;
        self.parts.push(Signed { minus, value })?;
        self.minus = is_minus;
        Ok(())
    }

    /// The sum of the level, which is left with other parts.
    pub fn take_value(&mut self, alloc: Global) -> Result<Expr, OutOfMemory>
        ensures { IfOk result (λ x. x ≡ level_value self.old) }
    {
        if !self.minus && self.parts.is_empty() {
            return self.take_part(alloc);
        }
        self.next_part(alloc, false)?;
        sum_of(mem::replace(&mut self.parts, Items::new(alloc)))
    }
}
