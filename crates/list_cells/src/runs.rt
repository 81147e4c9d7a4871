//! Rows of lines, which are rows or columns of a list.
ghost use Rattle.std.specs.Prelude.{◌≡◌, ◌≤◌, ◌+◌, ◌*◌, ◌<◌, IfOk, IfErr, IfSome, MatchResult, pos, nat_abs};
ghost use Rattle.std.specs.Prelude.{if◌then◌else◌, int_le, None, Some};
ghost use Rattle.tb_geom.specs.Refusals.{first_refusal};
ghost use Rattle.list_cells.specs.Runs.{is_count, is_side, new_refusals, add_refusals, delete_refusals, place_to_add, count_to_delete};

use tb_geom::Refusal;

/// How many rows, columns and cells a list may have, and how many are added or deleted at once.
pub(crate) const MOST: usize = 4096;

/// Lines that lie side by side: from which one on, and how many.
#[derive(Clone, Copy)]
pub(crate) struct Run {
    pub(crate) at: usize,
    pub(crate) count: usize,
}

/// The number, where it is not below 0.
pub(crate) fn natural(number: i32) -> Option<usize>
    ensures { result ≡ (if int_le (pos 0) number then Some (nat_abs number) else None) }
{
    match usize::try_from(number) {
        Ok(natural) => Some(natural),
        Err(_) => None,
    }
}

/// The number, where so many lines may be added or deleted at once.
fn counted(number: i32) -> Option<usize>
    ensures { result ≡ (if is_count number then Some (nat_abs number) else None) }
{
    match usize::try_from(number) {
        Ok(count) => if 1 <= count && count <= MOST {
            Some(count)
        } else {
            None
        },
        Err(_) => None,
    }
}

/// The number, where a new list may have so many columns or rows.
fn side(number: i32) -> Option<usize>
    ensures { result ≡ (if is_side number then Some (nat_abs number) else None) }
{
    match usize::try_from(number) {
        Ok(side) => if side <= MOST { Some(side) } else { None },
        Err(_) => None,
    }
}

/// The columns and the rows of a new list. OutOfRange where a number lies outside 0..=4096, TooMany where there would be more
/// than 4096 cells.
#[tactic(auto, unfolding(crate::specs::Runs::new_refusals))]
pub(crate) fn sides(columns: i32, rows: i32) -> Result<(usize, usize), Refusal>
    ensures { MatchResult result
        (λ sides. (first_refusal (new_refusals columns rows) ≡ None)
        × (sides ≡ (nat_abs columns, nat_abs rows))
        × (sides.0 ≤ 4096) × (sides.1 ≤ 4096) × (sides.1 * sides.0 ≤ 4096))
        (λ e. first_refusal (new_refusals columns rows) ≡ Some e) }
{
    let (Some(columns), Some(rows)) = (side(columns), side(rows)) else {
        return Err(Refusal::OutOfRange);
    };
    if rows * columns > MOST {
        return Err(Refusal::TooMany);
    }
    Ok((columns, rows))
}

impl Run {
    /// The lines that are added before one, or at the end, where there are `lines` with `across` cells each. NoSuchCell where
    /// `before` is below 0, OutOfRange where `count` is not in 1..=4096, TooMany where there would be more than 4096 lines or
    /// cells.
    #[tactic(auto, unfolding(crate::specs::Runs::add_refusals))]
    pub(crate) fn to_add(
        lines: usize,
        across: usize,
        count: i32,
        before: i32,
    ) -> Result<Run, Refusal>
        requires lines { lines ≤ 4096 }
        requires across { across ≤ 4096 }
        ensures { MatchResult result
            (λ run. (first_refusal (add_refusals lines across count before) ≡ None)
            × (run ≡ record { at = place_to_add lines before; count = nat_abs count })
            × (lines + run.count ≤ 4096) × ((lines + run.count) * across ≤ 4096))
            (λ e. first_refusal (add_refusals lines across count before) ≡ Some e) }
    {
        let Some(before) = natural(before) else {
            return Err(Refusal::NoSuchCell);
        };
        let Some(count) = counted(count) else {
            return Err(Refusal::OutOfRange);
        };
        if lines + count <= MOST && (lines + count) * across <= MOST {
            Ok(Run {
                at: before.min(lines),
                count,
            })
        } else {
            Err(Refusal::TooMany)
        }
    }

    /// The lines that are deleted from one on, of so many. NoSuchCell where there is none of the number `first`, OutOfRange
    /// where `count` is not in 1..=4096.
    #[tactic(auto, unfolding(crate::specs::Runs::delete_refusals))]
    pub(crate) fn to_delete(lines: usize, count: i32, first: i32) -> Result<Run, Refusal>
        requires { lines ≤ 4096 }
        ensures { MatchResult result
            (λ run. (first_refusal (delete_refusals lines count first) ≡ None)
            × (run ≡ record { at = nat_abs first; count = count_to_delete lines count first })
            × (run.at + run.count ≤ lines))
            (λ e. first_refusal (delete_refusals lines count first) ≡ Some e) }
    {
        let Some(first) = natural(first) else {
            return Err(Refusal::NoSuchCell);
        };
        if lines <= first {
            return Err(Refusal::NoSuchCell);
        }
        let Some(count) = counted(count) else {
            return Err(Refusal::OutOfRange);
        };
        Ok(Run {
            at: first,
            count: count.min(lines - first),
        })
    }
}
