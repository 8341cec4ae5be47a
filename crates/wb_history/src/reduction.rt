//! Reductions of the elements of an array.

ghost use Rattle.std.specs.Prelude.{◌≡◌};
ghost use Rattle.wb_history.specs.Queries.{value_answer};
ghost use Rattle.wb_history.specs.Reductions.{reduce_answer, made_answer};

use crate::query::{Answer, refused};
use wb_arrays::{Mover, Op, ReduceErr};
use wb_book::Book;
use wb_cells::{Cell, Name};
use wb_edit::{Refusal, judgements};

// What a workbook makes of the elements as an answer.
fn made_answer(made: Result<i64, ReduceErr>) -> Result<Answer, Refusal>
    ensures { result ≡ made_answer made }
{
    match made {
        Ok(value) => Ok(Answer::Value(value)),
        Err(ReduceErr::Empty) => Err(refused(wb_cells::WhyRefused::Empty)),
        Err(ReduceErr::Overflow) => Err(refused(wb_cells::WhyRefused::Overflow)),
        Err(ReduceErr::NoMemory) => Err(Refusal::NoMemory),
    }
}

/// The sum, the least or the greatest of the elements of an array as an answer, or why there is none.
pub(crate) fn reduce_answer<M: Mover>(
    book: &Book,
    array: Name,
    op: Op,
    mover: &M,
) -> Result<Answer, Refusal>
    ensures { result ≡ value_answer (reduce_answer book.now.cells array op) }
{
    match judgements::array_kind(book.get(&Cell::Object(array))) {
        Ok(_) => made_answer(book.reduce(&array, op, mover)),
        Err(why) => Err(refused(why)),
    }
}
