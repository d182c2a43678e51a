//! Folding one list of values into another.

ghost use Rattle.std.specs.Prelude.{◌≡◌, ◌↔◌, length, IsOk, IfErr, OnOk, OnErr};
ghost use Rattle.groups.specs.Folds.{CanFold, bytes_in, bytes_of_value, combine, fold_values, value_of};
ghost use Rattle.groups.specs.declared.operations.Ty.TheVariants.{Int, Long};

use crate::operations::{Op, Ty};
use thiserror::Error;

/// Two lengths that cannot be folded: they differ, or they are no multiple of the type's width.
#[derive(Debug, Drop, Error)]
#[error("lengths {acc} and {more} do not fit")]
pub struct Shape {
    pub acc: usize,
    pub more: usize,
}

fn combine_ints(op: Op, a: i32, b: i32) -> i32
    ensures combines { result ≡ combine op Int a b }
{
    match op {
        Op::Sum => a.wrapping_add(b),
        Op::Min => a.min(b),
        Op::Max => a.max(b),
        Op::Prod => a.wrapping_mul(b),
    }
}

fn combine_longs(op: Op, x: i64, y: i64) -> i64
    ensures combines { result ≡ combine op Long x y }
{
    match op {
        Op::Sum => x.wrapping_add(y),
        Op::Min => x.min(y),
        Op::Max => x.max(y),
        Op::Prod => x.wrapping_mul(y),
    }
}

fn int_of(bytes: &[u8]) -> i32
    requires width { length bytes.now ≡ 4 }
    ensures reads { result ≡ value_of Int bytes.now }
{
    i32::from_le_bytes([bytes[0], bytes[1], bytes[2], bytes[3]])
}

fn long_of(bytes: &[u8]) -> i64
    requires width { length bytes.now ≡ 8 }
    ensures reads { result ≡ value_of Long bytes.now }
{
    i64::from_le_bytes([
        bytes[0], bytes[1], bytes[2], bytes[3], bytes[4], bytes[5], bytes[6], bytes[7],
    ])
}

// Folds one value into another.
fn fold_value(op: Op, ty: Ty, acc: &mut [u8], more: &[u8])
    requires acc_width { length acc.old ≡ bytes_in ty }
    requires more_width { length more.now ≡ bytes_in ty }
    ensures folds { acc.new ≡ bytes_of_value ty (combine op ty (value_of ty acc.old) (value_of ty more.now)) }
{
    match ty {
        Ty::Int => {
            let value = combine_ints(op, int_of(acc), int_of(more));
            acc.copy_from_slice(&value.to_le_bytes());
        }
        Ty::Long => {
            let value = combine_longs(op, long_of(acc), long_of(more));
            acc.copy_from_slice(&value.to_le_bytes());
        }
    }
}

/// Puts `acc op more` into `acc`, value by value.
pub fn fold_into(op: Op, ty: Ty, acc: &mut [u8], more: &[u8]) -> Result<(), Shape>
    ensures fits { IsOk result ↔ CanFold ty acc.old more.now }
    ensures shape { IfErr result (λ e. e ≡ record { acc = length acc.old; more = length more.now }) }
    ensures folds { OnOk result (acc.new ≡ fold_values op ty acc.old more.now) }
    ensures unchanged { OnErr result (acc.new ≡ acc.old) }
{
    let width = ty.width();
    if acc.len() != more.len() || acc.len() % width != 0 {
        return Err(Shape {
            acc: acc.len(),
            more: more.len(),
        });
    }
    let count = acc.len() / width;
    for i in 0..count {
        let at = i * width;
        fold_value(op, ty, &mut acc[at..at + width], &more[at..at + width]);
    }
    Ok(())
}
