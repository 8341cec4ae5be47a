//! On which locale an index of a domain lies.

ghost use Rattle.std.specs.Prelude.{◌≡◌};
ghost use Rattle.wb_history.specs.Locales.{where_answer, locale_answer};

use crate::query::{Answer, refused};
use wb_book::Book;
use wb_cells::{AnyIndex, Cell, Name};
use wb_edit::{Refusal, judgements};

/// The locale of an index of a domain, or why it lies on none.
pub(crate) fn locale_of(
    book: &Book,
    domain: Name,
    index: AnyIndex,
) -> Result<usize, wb_cells::WhyRefused>
    ensures { result ≡ where_answer book.now.cells domain index }
{
    let kind = judgements::domain_kind(book.get(&Cell::Object(domain)))?;
    judgements::fits(kind.kind(), index)?;
    judgements::is_there(book.get(&kind.kind().index_cell(domain, index)))?;
    Ok(book.locale_of(&domain, &index).unwrap_or(0))
}

pub(crate) fn locale_answer(found: Result<usize, wb_cells::WhyRefused>) -> Result<Answer, Refusal>
    ensures { result ≡ locale_answer found }
{
    match found {
        Ok(locale) => Ok(Answer::Locale(locale)),
        Err(why) => Err(refused(why)),
    }
}
