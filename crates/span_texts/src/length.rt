//! How long the text of a table is.
ghost use Rattle.std.specs.Prelude.{◌≡◌, ◌≤◌, ◌^◌, [], length};
ghost use Rattle.span_texts.specs.Rows as spec;
ghost use Rattle.span_texts.specs.Words.{known_text};

use itoa::Buffer;
use span_bounds::{Ages, Context, Rows, Table, each_context_has_its_number};

/// How many bytes the text of the table has. It takes no memory.
#[tactic(auto, unfolding(crate::specs::Rows::table_text))]
pub fn text_len(table: &Table) -> usize
    ensures { result ≡ length (spec.table_text table.now.rows) }
{
    each_context_has_its_number();
    let follow = table.follow();
    let rows = table.rows();
    "pio table 1\n".len() + rows_len(rows) + "end\n".len()
}

/// How many bytes the lines of rows have, which are no more than a table may have.
fn rows_len(rows: Rows<'_>) -> usize
    requires { length rows ≤ 2 ^ 40 }
    ensures value { result ≡ length (spec.row_lines rows.entry) }
    ensures fits { result ≤ 2 ^ 48 }
{
    let mut rest = rows;
    let mut len = 0;
    while let Some(row) = rest.next() {
        len += context_len(&row.context) + ages_len(row.ages);
    }
    len
}

/// How many bytes the line of a row has without its ages.
fn context_len(context: &Context) -> usize
    ensures value { result ≡ length (spec.context_line context.now []) }
    ensures fits { result ≤ 128 }
{
    let mut buffer = Buffer::new();
    let address = buffer.format(context.address).len();
    let x = known_len(context.x);
    let y = known_len(context.y);
    address + x + y + " ".len() + " ".len() + " 0 0 ".len() + "\n".len()
}

/// How many bytes what is known of X or Y has.
fn known_len(known: Option<u16>) -> usize
    ensures value { result ≡ length (known_text known) }
    ensures fits { result ≤ 40 }
{
    let mut buffer = Buffer::new();
    match known {
        Some(number) => buffer.format(number).len(),
        None => "any".len(),
    }
}

/// How many bytes the ages of a row have.
fn ages_len(ages: Ages) -> usize
    ensures value { result ≡ length (spec.ages_text ages) }
    ensures fits { result ≤ 128 }
{
    let mut buffer = Buffer::new();
    match ages {
        Ages::Empty => "-".len(),
        Ages::Between(lo, hi) => {
            let least = buffer.format(lo).len();
            least + " ".len() + buffer.format(hi).len()
        }
    }
}
