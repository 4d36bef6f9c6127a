ghost use Rattle.std.specs.Prelude.{◌≡◌, ◌++◌, pos, ◌<◌, ◌<ℤ◌, OnOk};
ghost use Rattle.plan_svg.specs.Decimal.{decimal_text, fraction_text, thousandths_text};

use crate::text::{put, put_number};
use plan_wire::NoMemory;

/// Puts `x / w` as a decimal number, rounded to the thousandth. The weight must be positive.
#[tactic(auto, unfolding(crate::specs::Decimal::decimal_text))]
pub fn put_decimal(out: &mut Vec<u8>, x: i64, w: i64) -> Result<(), NoMemory>
    requires { pos 0 <ℤ w }
    ensures { OnOk result (out.new.items ≡ out.old.items ++ decimal_text x w) }
{
    if x < 0 {
        put(out, "-")?;
    }
    let (x, w) = (u128::from(x.unsigned_abs()), u128::from(w.unsigned_abs()));
    put_thousandths(out, (2000 * x + w) / (2 * w))
}

#[tactic(auto, unfolding(crate::specs::Decimal::thousandths_text))]
fn put_thousandths(out: &mut Vec<u8>, number: u128) -> Result<(), NoMemory>
    ensures { OnOk result (out.new.items ≡ out.old.items ++ thousandths_text number) }
{
    put_number(out, number / 1000)?;
    put_fraction(out, number % 1000)
}

// So many thousandths behind a point, without zeros at the end.
#[tactic(auto, unfolding(crate::specs::Decimal::fraction_text))]
fn put_fraction(out: &mut Vec<u8>, number: u128) -> Result<(), NoMemory>
    ensures { OnOk result (out.new.items ≡ out.old.items ++ fraction_text number) }
{
    if number == 0 {
        return Ok(());
    }
    put(out, ".")?;
    put_number(out, number / 100)?;
    if number % 100 == 0 {
        return Ok(());
    }
    put_number(out, number / 10 % 10)?;
    if number % 10 == 0 {
        return Ok(());
    }
    put_number(out, number % 10)
}
