//! Lists of whole numbers, each list in the narrowest form that holds its numbers.

ghost use Rattle.std.specs.Prelude.{◌≡◌, ℤ, map, length, IfOk, IfSome, FitsSigned};
ghost use Rattle.std.specs.Int.{w64};
ghost use Rattle.std.specs.List.{All};
ghost use Rattle.wb_text.specs.Numbers.{numbers_in};

use std::alloc::{AllocError, Global};
use std::marker::Model;
use wb_cells::numbers_validity;

// A form of whole numbers.
trait Width: Copy {
    // The number that a value is.
    ghost whole: { Self → ℤ };

    // The number that a value is.
    fn wide(self) -> i64
        ensures { result ≡ whole self };

    // The value that is the number, if there is one.
    fn narrow(number: i64) -> Option<Self>
    where
        Self: Sized,
        ensures { IfSome result (λ x. whole x ≡ number) };
}

impl Width for i8 {
    ghost whole = { λ x. x };

    fn wide(self) -> i64 {
        i64::from(self)
    }

    fn narrow(number: i64) -> Option<i8> {
        i8::try_from(number).ok()
    }
}

impl Width for i16 {
    ghost whole = { λ x. x };

    fn wide(self) -> i64 {
        i64::from(self)
    }

    fn narrow(number: i64) -> Option<i16> {
        i16::try_from(number).ok()
    }
}

impl Width for i32 {
    ghost whole = { λ x. x };

    fn wide(self) -> i64 {
        i64::from(self)
    }

    fn narrow(number: i64) -> Option<i32> {
        i32::try_from(number).ok()
    }
}

// The numbers in a form; `None` where one of them doesn't fit.
fn narrowed<T: Width>(alloc: Global, numbers: &[i64]) -> Result<Option<Vec<T>>, AllocError>
    ensures { IfOk result (λ r. IfSome r (λ v. map T.whole v.items ≡ numbers.now)) }
{
    let mut list = Vec::with_capacity(alloc, numbers.len())?;
    for number in numbers {
        match T::narrow(*number) {
            Some(narrow) => list.push(narrow)?,
            None => return Ok(None),
        }
    }
    Ok(Some(list))
}

// The numbers as they are.
fn widened<T: Width>(alloc: Global, list: &[T]) -> Result<Vec<i64>, AllocError>
    ensures { IfOk result (λ v. v.items ≡ map T.whole list.now) }
{
    let mut numbers = Vec::with_capacity(alloc, list.len())?;
    for narrow in list {
        numbers.push(narrow.wide())?;
    }
    Ok(numbers)
}

/// Whole numbers in a form.
#[derive(Drop)]
pub(crate) enum NumberForm {
    /// Of 8 bits.
    Bits8(Vec<i8>),
    /// Of 16 bits.
    Bits16(Vec<i16>),
    /// Of 32 bits.
    Bits32(Vec<i32>),
    /// Of 64 bits.
    Bits64(Vec<i64>),
}

// The numbers in the narrowest form that holds them all.
fn form_of(alloc: Global, numbers: Vec<i64>) -> Result<NumberForm, AllocError>
    ensures { IfOk result (λ f. numbers_in f ≡ numbers.items) }
{
    if let Some(list) = narrowed(alloc, numbers.as_slice())? {
        return Ok(NumberForm::Bits8(list));
    }
    if let Some(list) = narrowed(alloc, numbers.as_slice())? {
        return Ok(NumberForm::Bits16(list));
    }
    if let Some(list) = narrowed(alloc, numbers.as_slice())? {
        return Ok(NumberForm::Bits32(list));
    }
    let mut numbers = numbers;
    numbers.shrink_to_fit();
    Ok(NumberForm::Bits64(numbers))
}

/// A list of whole numbers of 64 bits, in the narrowest form that holds them all: 1, 2, 4 or 8 bytes each. Contracts see the list.
#[derive(Drop)]
pub struct NumberList {
    form: NumberForm,
}

impl Model for NumberList {
    ghost use Rattle.std.specs.Prelude.{ℤ, List, FitsSigned};
    ghost use Rattle.std.specs.Int.{w64};
    ghost use Rattle.std.specs.List.{All};
    ghost use Rattle.wb_text.specs.Numbers.{numbers_in};

    ghost Value = { List ℤ };

    ghost view = { λ a. numbers_in a.form };

    ghost invariant = { λ a. All (FitsSigned w64) (numbers_in a.form) };
}

impl NumberList {
    /// The numbers, in their order. Takes memory for them, unless one needs 64 bits.
    pub fn of(alloc: Global, numbers: Vec<i64>) -> Result<NumberList, AllocError>
        ensures { IfOk result (λ l. l ≡ numbers.items) }
    {
        numbers_validity(numbers.as_slice());
        let form = form_of(alloc, numbers)?;
        Ok(NumberList { form })
    }

    /// How many numbers there are.
    pub fn len(&self) -> usize
        ensures length { result ≡ length self.now }
        ensures fits { All (FitsSigned w64) self.now }
    {
        match &self.form {
            NumberForm::Bits8(list) => list.len(),
            NumberForm::Bits16(list) => list.len(),
            NumberForm::Bits32(list) => list.len(),
            NumberForm::Bits64(list) => list.len(),
        }
    }

    /// The numbers as they are, 8 bytes each, or the error that no memory is left.
    pub fn list(&self, alloc: Global) -> Result<Vec<i64>, AllocError>
        ensures { IfOk result (λ v. v.items ≡ self.now) }
    {
        match &self.form {
            NumberForm::Bits8(list) => widened(alloc, list),
            NumberForm::Bits16(list) => widened(alloc, list),
            NumberForm::Bits32(list) => widened(alloc, list),
            NumberForm::Bits64(list) => Vec::from_slice(alloc, list),
        }
    }
}
