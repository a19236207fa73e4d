// One book, solved by analyses and by the reference.
ghost use Rattle.std.specs.Prelude.{◌≡◌, ◌<◌, ◌↔◌, IsTrue, IfOk, map, length};
ghost use Rattle.books.specs.Books.{at};
ghost use Rattle.books.specs.Entries.{values};
ghost use Rattle.book_trials.specs.Solved.{IsLeastSolution};

use base::Refusal;
use books::{Book, Entry};
use reference::{Extended, Readable, solve_book};
use solver::{Analysis, Answer, Call, MOST_ROUNDS, make_calls};
use std::alloc::Global;

/// What the reference found of a book, nothing where it came to no end, and whether the analyses come to the same.
#[derive(Drop)]
pub struct Trial {
    pub found: Vec<Extended>,
    pub agrees: bool,
}

// Whether an unknown is there and has this value.
fn shows_at<K: Readable>(analysis: &Analysis<'_, K>, unknown: usize, value: Extended) -> bool
    ensures { IsTrue result ↔ (unknown < length analysis.now.list.now) × (K.Readable.reading (at K.Kind.ops (values analysis.now.list.now) unknown) ≡ value) }
{
    match analysis.value(unknown) {
        Ok(own) => own.extended() == value,
        Err(_) => false,
    }
}

// Whether these are all values of an analysis.
fn shows<K: Readable>(analysis: &Analysis<'_, K>, found: &[Extended]) -> bool
    ensures { IsTrue result ↔ (map K.Readable.reading (values analysis.now.list.now) ≡ found.now) }
{
    // By number: an analysis shows one unknown at a time.
    for unknown in 0..found.len() {
        if !shows_at(analysis, unknown, found[unknown]) {
            return false;
        }
    }
    analysis.value(found.len()).is_err()
}

// Whether an analysis has a choice just where the value is above the lowest.
fn chooses<K: Readable>(analysis: &Analysis<'_, K>, found: &[Extended]) -> bool {
    found.iter().enumerate().all(|(unknown, value)| match analysis.choice(unknown) {
        Ok(choice) => choice.is_some() == (*value > Extended::NegInf),
        Err(_) => false,
    })
}

// Makes rounds from a restart until settled. Says whether that came to an end.
fn settles_by_rounds<K: Readable, B: Book<K>>(analysis: &mut Analysis<'_, K>, book: &B) -> bool {
    analysis.restart();
    for _ in 0..=MOST_ROUNDS {
        if analysis.round(book).settled {
            return true;
        }
    }
    false
}

// Whether an analysis settles at these values, in one run, and by rounds from a restart.
fn settles_at<K: Readable, B: Book<K>>(
    book: &B,
    list: &mut [Entry<K>],
    found: &[Extended],
) -> Result<bool, Refusal>
    ensures { IfOk result (λ same. IsTrue same → IsLeastSolution K.Kind.ops K.Readable.reading (B.Book.equations book.now) found.now) }
{
    let mut analysis = Analysis::set_up(book, list)?;
    let run = analysis.run(book, MOST_ROUNDS)?;
    if !run.settled || !shows(&analysis, found) {
        return Ok(false);
    }
    let by_rounds = settles_by_rounds(&mut analysis, book) && shows(&analysis, found);
    Ok(by_rounds && analysis.rounds() == run.rounds && chooses(&analysis, found))
}

// Whether a list of calls, made in a row, comes to these values.
fn calls_lead_to<K: Readable, B: Book<K>>(
    alloc: Global,
    book: &B,
    list: &mut [Entry<K>],
    found: &[Extended],
) -> Result<bool, Refusal> {
    let calls = [
        Call::Round,
        Call::Restart,
        Call::Run(MOST_ROUNDS),
        Call::Rounds,
    ];
    let mut answers = vec![in alloc; Ok(Answer::Done); calls.len()]?;
    let rounds = make_calls(book, list, &calls, answers.as_mut_slice())?;
    let counted = match answers.last() {
        Some(Ok(Answer::Counted(count))) => *count == rounds,
        _ => false,
    };
    Ok(
        counted
            && list
                .iter()
                .zip(found)
                .all(|(entry, value)| entry.value.extended() == *value),
    )
}

// Whether two entries have the same value and the same choice.
fn same_entry<K: Readable>(entry: Entry<K>, other: Entry<K>) -> bool
    ensures { IsTrue result ↔ (K.Readable.reading entry.value ≡ K.Readable.reading other.value)
        × (entry.choice ≡ other.choice) }
{
    entry.value.extended() == other.value.extended() && entry.choice == other.choice
}

// Whether set-up refuses a list that is an entry short and leaves it, and leaves what lies behind the unknowns in a longer one.
// Every entry of the list has the value, and a choice that no book has.
fn keeps_lists<K: Readable, B: Book<K>>(
    book: &B,
    list: &mut [Entry<K>],
    value: K,
) -> Result<bool, Refusal> {
    let mark = Entry {
        value,
        choice: Some(99),
    };
    list.fill_with(|| mark);
    let is_mark = |entry: &Entry<K>| same_entry(*entry, mark);
    let short = book.count().saturating_sub(1);
    let refused = match list.get_mut(0..short) {
        Some(front) if short < book.count() => Analysis::set_up(book, front).is_err(),
        _ => true,
    };
    let kept = list.iter().all(is_mark);
    Analysis::set_up(book, list)?;
    Ok(refused && kept && list.iter().skip(book.count()).all(is_mark))
}

/// Solves a book by the reference and by analyses. No number of its least solution may lie above the cap.
pub fn try_book<K: Readable, B: Book<K>>(
    alloc: Global,
    book: &B,
    cap: i64,
) -> Result<Trial, Refusal>
    ensures { IfOk result (λ trial. IsTrue trial.agrees → IsLeastSolution K.Kind.ops K.Readable.reading (B.Book.equations book.now) trial.found.items) }
{
    let Some(found) = solve_book(alloc, book, cap)? else {
        return Ok(Trial {
            found: Vec::new(alloc),
            agrees: false,
        });
    };
    let entry = Entry {
        value: K::greatest(),
        choice: None,
    };
    let mut list = vec![in alloc; entry; book.count()]?;
    let mut longer = vec![in alloc; entry; book.count().saturating_add(2)]?;
    let agrees = settles_at(book, list.as_mut_slice(), found.as_slice())?
        && calls_lead_to(alloc, book, list.as_mut_slice(), found.as_slice())?
        && keeps_lists(book, longer.as_mut_slice(), K::least())?
        && keeps_lists(book, longer.as_mut_slice(), K::greatest())?;
    Ok(Trial { found, agrees })
}
