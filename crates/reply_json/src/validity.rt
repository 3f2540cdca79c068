//! Which replies are valid.
ghost use Rattle.std.specs.Prelude.{◌≡◌};
ghost use Rattle.std.specs.List.{list_all};
ghost use Rattle.reply_json.specs.Validity.{is_one_total, is_value_row, is_area_row, is_bin_row, is_pair_row, are_valid_rows, is_valid_reply};

use crate::Reply;
use query_syntax::RowOut;

fn all_values(rows: &[RowOut]) -> bool
    ensures { result ≡ list_all is_value_row rows.now }
{
    rows.iter().all(|row| matches!(row, RowOut::Value(_, _)))
}

fn all_areas(rows: &[RowOut]) -> bool
    ensures { result ≡ list_all is_area_row rows.now }
{
    rows.iter().all(|row| matches!(row, RowOut::Area(_, _)))
}

fn all_bins(rows: &[RowOut]) -> bool
    ensures { result ≡ list_all is_bin_row rows.now }
{
    rows.iter().all(|row| matches!(row, RowOut::Bin(_, _)))
}

fn all_pairs(rows: &[RowOut]) -> bool
    ensures { result ≡ list_all is_pair_row rows.now }
{
    rows.iter().all(|row| matches!(row, RowOut::Pair(_, _, _)))
}

fn is_one_total(rows: &[RowOut]) -> bool
    ensures { result ≡ is_one_total rows.now }
{
    matches!(rows, [RowOut::One(_)])
}

/// Whether the reply is one that can be printed: the rows of a table are of one kind, and a total
/// alone is its only row.
#[tactic(auto, unfolding(crate::specs::Validity::is_valid_reply))]
pub fn is_valid_reply(reply: &Reply) -> bool
    ensures { result ≡ is_valid_reply reply.now }
{
    match reply {
        Reply::Table(table) => {
            let rows = table.rows.as_slice();
            is_one_total(rows)
                || all_values(rows)
                || all_areas(rows)
                || all_bins(rows)
                || all_pairs(rows)
        }
        _ => true,
    }
}
