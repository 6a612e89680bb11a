//! Masks by which positions are passed over: 64 of them lie in a word (as HyPer's vectorized scans of unversioned
//! ranges: Neumann, Mühlbauer, Kemper, "Fast Serializable Multi-Version Concurrency Control for Main-Memory Database
//! Systems", SIGMOD 2015).

ghost use Rattle.std.specs.Prelude.{◌≡◌, ◌<◌, ◌&&◌, ◌∷◌, [], true, false, IfOk, IfSome, IfNone, length, map, replicate};
ghost use lib.Lanes.{zip2};
ghost use Rattle.hy_bound.specs.Condition.{Compare};
ghost use Rattle.hy_bound.specs.Records.{conjuncts};
ghost use Rattle.hy_bound.specs.declared.predicate.Side.{Side};
ghost use Rattle.hy_chunk.specs.Candidates.{IsPlain};
ghost use Rattle.hy_chunk.specs.Fields.{nth};
ghost use Rattle.hy_chunk.specs.Gathering.{conditions_of, kept_by};
ghost use Rattle.hy_chunk.specs.Masked.{Admits, Confirms};
ghost use Rattle.hy_stamp.specs.declared.Viewer.{Viewer};
ghost use Rattle.hy_undo.specs.Places.{sees};
ghost use Rattle.hy_value.specs.declared.Value.{Value};

use crate::gathering::Wanted;
use crate::positions::{Part, Positions};
use crate::writes::is_selected;
use hy_bound::{Pred, Root, SideView};
use hy_kernel::Mask;
use hy_undo::Version;
use hy_value::Cmp;
use std::alloc::{AllocError, Global};

/// A comparison of a column with a number.
#[derive(Clone, Copy)]
struct Comparison {
    column: u32,
    op: Cmp,
    number: i64,
}

/// A condition as a comparison of a column with a number, if it is one.
fn comparison_of(pred: &Pred) -> Option<Comparison>
    ensures { IfSome result (λ one. pred.now ≡ Compare one.column one.op (Side.Literal (Value.Int one.number))) }
{
    match pred.root() {
        Root::Compare {
            column,
            op,
            side: SideView::Int(number),
        } => Some(Comparison { column, op, number }),
        _ => None,
    }
}

/// The positions at which a condition may be true of the row in place.
#[derive(Drop)]
pub struct Admission {
    /// A bit for each position; where it is clear, the condition is not true of the row in place.
    pub mask: Mask,
    /// Whether the condition is true of the row in place wherever the bit is set.
    pub is_exact: bool,
}

/// A scan of the positions of a part, of which a mask may pass some.
#[derive(Clone, Copy)]
pub struct Scan<'a> {
    /// The part.
    pub part: Part,
    /// The mask.
    pub mask: &'a Mask,
}

/// The positions at which one condition is true of the row in place, where a mask can tell. Err is for want of memory.
fn admitted_by_one(
    alloc: Global,
    positions: &Positions,
    pred: &Pred,
) -> Result<Option<Mask>, AllocError>
    ensures admits { IfOk result (λ found. IfSome found (λ mask. Admits (pred.now ∷ []) positions.now.places mask)) }
    ensures confirms { IfOk result (λ found. IfSome found (λ mask. Confirms (pred.now ∷ []) positions.now.places mask)) }
{
    match comparison_of(pred) {
        Some(one) => positions.compare(alloc, one.column, one.op, one.number),
        None => Ok(None),
    }
}

/// So many bits, all of them set. Err is for want of memory.
pub fn all_set(alloc: Global, bits: usize) -> Result<Mask, AllocError>
    ensures { IfOk result (λ mask. mask ≡ replicate bits true) }
{
    let mut mask = Mask::new(alloc, bits)?;
    mask.invert();
    Ok(mask)
}

/// A mask joined with the one before it, if there is one: set where both are.
fn joined(before: Option<Mask>, mask: Mask) -> Mask
    requires { IfSome before (λ one. length mask ≡ length one) }
    ensures first { IfNone before (result ≡ mask) }
    ensures both { IfSome before (λ one. result ≡ zip2 (λ bit bits. bit && bits) one mask) }
{
    match before {
        Some(mut one) => {
            one.and_with(&mask);
            one
        }
        None => mask,
    }
}

/// The positions at which all of some conditions may be true of the row in place, exactly where masks can tell of each
/// of them. Err is for want of memory.
fn admitted_by_all(
    alloc: Global,
    positions: &Positions,
    parts: &[&Pred],
) -> Result<Admission, AllocError>
    ensures admits { IfOk result (λ found. Admits (map (λ part. part.now) parts.now) positions.now.places found.mask) }
    ensures confirms { IfOk result (λ found. found.is_exact ≡ true
        → Confirms (map (λ part. part.now) parts.now) positions.now.places found.mask) }
{
    let mut found = None;
    let mut is_exact = true;
    for part in parts {
        match admitted_by_one(alloc, positions, part)? {
            Some(mask) => found = Some(joined(found, mask)),
            None => is_exact = false,
        }
    }
    let mask = match found {
        Some(mask) => mask,
        None => all_set(alloc, positions.len())?,
    };
    Ok(Admission { mask, is_exact })
}

/// The positions at which a condition may be true of the row in place, by masks of the conditions that AND joins in it.
/// They are exact where each of these compares a column of numbers with a number. Err is for want of memory.
pub fn admitted(alloc: Global, positions: &Positions, pred: &Pred) -> Result<Admission, AllocError>
    ensures admits { IfOk result (λ found. Admits (conjuncts pred.now) positions.now.places found.mask) }
    ensures confirms { IfOk result (λ found. found.is_exact ≡ true → Confirms (conjuncts pred.now) positions.now.places found.mask) }
{
    let mut parts = Vec::new(alloc);
    pred.add_conjuncts(&mut parts)?;
    admitted_by_all(alloc, positions, parts.as_slice())
}

/// Whether nothing is wanted at a position, as a mask tells: no record is there, and it admits no row in place.
pub fn is_passed(positions: &Positions, place: usize, wanted: &Wanted, mask: &Mask) -> bool
    requires within { place < length positions.now.places }
    requires mask { Admits (conjuncts wanted.now.pred.now) positions.now.places mask.now }
    ensures { result ≡ true → (viewer : Viewer) → kept_by wanted.now.columns (conditions_of wanted.now.pred.now wanted.now.keys)
        (sees viewer (nth positions.now.places place)) ≡ [] }
{
    !mask.get(place) && !positions.is_versioned(place)
}

/// Whether a condition may select a row at a position, whoever looks: a record is there, or the row in place is
/// selected. `version` is a scratch one of as many columns.
pub fn may_select(
    positions: &Positions,
    place: usize,
    pred: &Pred,
    found: &Admission,
    version: &mut Version,
) -> bool
    requires within { place < length positions.now.places }
    requires width { length version.old.row ≡ length positions.now.kinds }
    requires admits { Admits (conjuncts pred.now) positions.now.places found.now.mask }
    ensures barred { result ≡ false → IsPlain pred.now (nth positions.now.places place) }
    ensures width { length version.new.row ≡ length positions.now.kinds }
{
    if positions.has_record(place) {
        return true;
    }
    if !positions.is_live(place) {
        return false;
    }
    if !found.mask.get(place) {
        return false;
    }
    if found.is_exact {
        return true;
    }
    positions.read(place, version);
    is_selected(version, pred)
}
