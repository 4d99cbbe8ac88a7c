//! The row of a line.
ghost use Rattle.std.specs.Prelude.{◌≡◌, ◌<◌, ◌∷◌, IfOk, IfSome, IsTrue, option_map};
ghost use Rattle.span_step.specs.Contexts.{is_placed, is_small};
ghost use Rattle.span_texts.specs.Capped.{capped_ages, capped_said};
ghost use Rattle.span_texts.specs.TableLines as spec;
ghost use Rattle.span_texts.specs.Numbers.{capped};

use crate::fault::TableKind;
use crate::fields::Fields;
use crate::number::number_in;
use crate::said::Said;
use pin_matrix::Follow;
use span_bounds::{Ages, Context, Row, number_of};

/// The row of a line, or what is wrong with it, where X and Y are followed so far, after rows whose contexts' numbers are all below
/// this one.
#[tactic(auto, unfolding(crate::specs::TableLines::row_at))]
pub(crate) fn read_row(follow: Follow, line: &[u8], least: usize) -> Result<Row, TableKind>
    ensures value { result ≡ spec.row_at follow least line.now }
    ensures placed { IfOk result (λ row. IsTrue (is_placed follow row.context.address row.context.x row.context.y)) }
{
    match said_in(line) {
        None => Err(TableKind::BadLine),
        Some(said) => in_order(follow, row_of(follow, &said), least),
    }
}

/// A row whose context has at least this number, or what is wrong with it.
fn in_order(follow: Follow, row: Option<Row>, least: usize) -> Result<Row, TableKind>
    requires { IfSome row (λ row. IsTrue (is_placed follow row.context.address row.context.x row.context.y)) }
    ensures value { result ≡ spec.in_order follow least row }
    ensures placed { IfOk result (λ row. IsTrue (is_placed follow row.context.address row.context.x row.context.y)) }
{
    match row {
        None => Err(TableKind::Range),
        Some(row) => {
            if least <= number_of(follow, &row.context) {
                Ok(row)
            } else {
                Err(TableKind::Order)
            }
        }
    }
}

/// What a row's line says, if it has that form.
fn said_in(line: &[u8]) -> Option<Said>
    ensures { result ≡ option_map capped_said (spec.said_in (spec.fields_of line.now)) }
{
    let mut fields = Fields::of_line(line);
    let address = fields.next()?;
    let x = fields.next()?;
    let y = fields.next()?;
    let from = fields.next()?;
    let to = fields.next()?;
    let address = number_in(address);
    let x = known_in(x);
    let y = known_in(y);
    let from = number_in(from);
    let to = number_in(to);
    let ages = ages_in(fields);
    said_by(address, x, y, from, to, ages)
}

/// What a line says whose fields say this, if each says something.
fn said_by(
    address: Option<u32>,
    x: Option<Option<u32>>,
    y: Option<Option<u32>>,
    from: Option<u32>,
    to: Option<u32>,
    ages: Option<Ages>,
) -> Option<Said>
    ensures { result ≡ spec.said_by address x y from to ages }
{
    Some(Said {
        address: address?,
        x: x?,
        y: y?,
        from: from?,
        to: to?,
        ages: ages?,
    })
}

/// What is said of X or Y: any, or a number.
fn known_in(field: &[u8]) -> Option<Option<u32>>
    ensures { result ≡ option_map (option_map capped) (spec.known_in field.now) }
{
    if field == b"any".as_slice() {
        Some(None)
    } else {
        match number_in(field) {
            Some(number) => Some(Some(number)),
            None => None,
        }
    }
}

/// What is said of ages by the fields that are left: none, or two numbers.
fn ages_in(fields: Fields<'_>) -> Option<Ages>
    ensures { result ≡ option_map capped_ages (spec.ages_in fields.entry) }
{
    let mut rest = fields;
    let first = rest.next()?;
    match rest.next() {
        None => empty_in(first),
        Some(second) => open_in(first, second, rest),
    }
}

/// Open ages by the fields of the least and the greatest, where no more are left.
fn open_in(lo: &[u8], hi: &[u8], fields: Fields<'_>) -> Option<Ages>
    ensures { result ≡ option_map capped_ages (spec.ages_in (lo.now ∷ hi.now ∷ fields.entry)) }
{
    let mut rest = fields;
    match rest.next() {
        Some(_) => None,
        None => {
            let least = number_in(lo);
            let greatest = number_in(hi);
            between(least, greatest)
        }
    }
}

/// No ages, where this field says so.
fn empty_in(field: &[u8]) -> Option<Ages>
    ensures { result ≡ option_map capped_ages (spec.empty_in field.now) }
{
    if field == b"-".as_slice() {
        Some(Ages::Empty)
    } else {
        None
    }
}

/// The least and the greatest age, if both are numbers.
fn between(lo: Option<u32>, hi: Option<u32>) -> Option<Ages>
    ensures { result ≡ spec.between lo hi }
{
    Some(Ages::Between(lo?, hi?))
}

/// The row that is said, if its numbers are in range.
fn row_of(follow: Follow, said: &Said) -> Option<Row>
    ensures value { result ≡ spec.row_of follow said.now }
    ensures placed { IfSome result (λ row. IsTrue (is_placed follow row.context.address row.context.x row.context.y)) }
{
    row_by(
        placed(said.address),
        known_placed(follow.x, said.x),
        known_placed(follow.y, said.y),
        level_of(said.from),
        level_of(said.to),
        ages_placed(said.ages),
    )
}

/// The row of these parts, if each is in range.
fn row_by(
    address: Option<u8>,
    x: Option<Option<u16>>,
    y: Option<Option<u16>>,
    from: Option<bool>,
    to: Option<bool>,
    ages: Option<Ages>,
) -> Option<Row>
    requires { IfSome address (λ n. n < 32) }
    ensures { result ≡ spec.row_by address x y from to ages }
{
    let context = Context {
        address: address?,
        x: x?,
        y: y?,
        from: from?,
        to: to?,
    };
    Some(Row {
        context,
        ages: ages?,
    })
}

/// An address in range.
fn placed(number: u32) -> Option<u8>
    ensures value { result ≡ spec.placed number }
    ensures range { IfSome result (λ n. n < 32) }
{
    if number < 32 {
        Some(number as u8)
    } else {
        None
    }
}

/// What is known of X or Y, in range.
fn known_placed(most: u16, known: Option<u32>) -> Option<Option<u16>>
    ensures value { result ≡ spec.known_placed most known }
    ensures range { IfSome result (λ known. IsTrue (is_small most known)) }
{
    match known {
        None => Some(None),
        Some(number) if number <= u32::from(most) => Some(Some(number as u16)),
        Some(_) => None,
    }
}

/// A level.
fn level_of(number: u32) -> Option<bool>
    ensures { result ≡ spec.level_of number }
{
    match number {
        0 => Some(false),
        1 => Some(true),
        _ => None,
    }
}

/// Ages in range: the least is at most the greatest.
fn ages_placed(ages: Ages) -> Option<Ages>
    ensures { result ≡ spec.ages_placed ages }
{
    match ages {
        Ages::Empty => Some(Ages::Empty),
        Ages::Between(lo, hi) => {
            if lo <= hi && hi <= 16_777_216 {
                Some(Ages::Between(lo, hi))
            } else {
                None
            }
        }
    }
}
