//! The indices of one degree in a finer basis, in groups by the indices over which they lie.
ghost use Rattle.std.specs.Prelude.{◌≡◌, ◌<◌, ◌≤◌, map, length, IfOk, OnOk, OnErr};
ghost use Rattle.index_rules.specs.Spaces.{limit_for};
ghost use Rattle.linear_combos.specs.CodeLists.{ListsIndices};
ghost use Rattle.realisations.specs.Bases.{index_kind_of};
ghost use Rattle.realisations.specs.Codes.{Code as CodeOf};
ghost use Rattle.inclusion_rules.specs.Table.{IsTable, IsByImages, IsPlaceOf, group};

use crate::inclusions::InclusionIn;
use hopf_num::OutOfMemory;
use index_rules::Space;
use linear_combos::{Code, Codes};
use std::alloc::Global;
use std::marker::{Model, PhantomData};

/// The indices of one degree in a basis, each after the index of a coarser basis over which it lies and in
/// the order of those; or no indices.
#[derive(Drop)]
pub(crate) struct Table<A: InclusionIn<B>, B: Space> {
    coarse: PhantomData<A>,
    fine: PhantomData<B>,
    degree: u32,
    pairs: Vec<(Code, Code)>,
}

impl<A: InclusionIn<B>, B: Space> Model for Table<A, B> {
    ghost use Rattle.std.specs.Prelude.{◌<◌, length};
    ghost use Rattle.inclusion_rules.specs.Table.{IsTable, PairsOfDegree};

    ghost Value = { PairsOfDegree };

    ghost view = { λ t. record { degree = t.degree; pairs = t.pairs.items } };

    ghost invariant = { λ t. 0 < length t.pairs.items → IsTable B.basis A.image t.degree t.pairs.items };
}

// Indices, each after the one over which it lies.
fn with_images<A: InclusionIn<B>, B: Space>(
    alloc: Global,
    degree: u32,
    all: &Codes,
) -> Result<Vec<(Code, Code)>, OutOfMemory>
    requires all { ListsIndices (index_kind_of B.basis) degree all.now }
    requires within { degree ≤ limit_for B.basis }
    ensures { IfOk result (λ pairs. pairs.items ≡ map (λ code. (A.image code, code)) all.now) }
{
    let mut pairs = Vec::new(alloc);
    for at in 0..all.len() {
        let code = all.at(at);
        let image = A::image_of(alloc, code)?;
        pairs.push((image, *code))?;
    }
    Ok(pairs)
}

// Sorts pairs by their images; each group keeps its order.
fn sort_by_images(pairs: &mut Vec<(Code, Code)>) -> Result<(), OutOfMemory>
    ensures sorted { OnOk result (IsByImages pairs.new.items) }
    ensures groups { OnOk result ((index : CodeOf) → group index pairs.new.items ≡ group index pairs.old.items) }
{
    pairs.sort_by_key(|pair| pair.0)?;
    Ok(())
}

// The place of an index among the images, by bisection.
fn place_of(pairs: &[(Code, Code)], index: &Code) -> usize
    requires { IsByImages pairs.now }
    ensures { IsPlaceOf index.now pairs.now result }
{
    let mut low = 0;
    let mut high = pairs.len();
    while low < high {
        let mid = low + (high - low) / 2;
        if pairs[mid].0 < *index {
            low = mid + 1;
        } else {
            high = mid;
        }
    }
    low
}

// The group of an index, in order.
fn group_of(alloc: Global, pairs: &[(Code, Code)], index: &Code) -> Result<Codes, OutOfMemory>
    requires { IsByImages pairs.now }
    ensures { IfOk result (λ over. over ≡ group index.now pairs.now) }
{
    let mut over = Codes::new(alloc);
    for at in place_of(pairs, index)..pairs.len() {
        if pairs[at].0 != *index {
            return Ok(over);
        }
        over.push(pairs[at].1)?;
    }
    Ok(over)
}

impl<A: InclusionIn<B>, B: Space> Table<A, B> {
    // No indices.
    pub(crate) fn new(alloc: Global) -> Table<A, B> {
        Table {
            coarse: PhantomData,
            fine: PhantomData,
            degree: 0,
            pairs: Vec::new(alloc),
        }
    }

    // The indices of a degree.
    fn of(alloc: Global, degree: u32) -> Result<Table<A, B>, OutOfMemory>
        requires { degree ≤ limit_for B.basis }
        ensures { IfOk result (λ table. IsTable B.basis A.image degree table.pairs) }
    {
        let all = B::list(alloc, degree)?;
        let mut pairs = with_images::<A, B>(alloc, degree, &all)?;
        sort_by_images(&mut pairs)?;
        Ok(Table {
            coarse: PhantomData,
            fine: PhantomData,
            degree,
            pairs,
        })
    }

    // Makes it the table of a degree, if it is not. An error leaves it as it was.
    pub(crate) fn turn_to(&mut self, alloc: Global, degree: u32) -> Result<(), OutOfMemory>
        requires { degree ≤ limit_for B.basis }
        ensures ok { OnOk result (IsTable B.basis A.image degree self.new.pairs) }
        ensures err { OnErr result (self.new ≡ self.old) }
    {
        if self.degree == degree && self.pairs.len() > 0 {
            return Ok(());
        }
        *self = Table::of(alloc, degree)?;
        Ok(())
    }

    // Its indices that lie over an index, in order.
    pub(crate) fn over(&self, alloc: Global, index: &Code) -> Result<Codes, OutOfMemory>
        requires { IsByImages self.now.pairs }
        ensures { IfOk result (λ over. over ≡ group index.now self.now.pairs) }
    {
        group_of(alloc, &self.pairs, index)
    }
}
