// The public calls for programs in other languages: each is one call of a crate below, and its promise is that call's; the guard's has
// demand 3 once more, over boards that are bytes.
// A slice crosses as a pointer and a length, a board as 16 bytes, a card as 1,025 words, an answer as document 01's number.
// Work memory comes slice by slice, as C's caller lends it.
// An array crosses as a pointer alone. So each name ends in its array's size: a program that was compiled for another does not link.
#![tactic(auto)]

ghost use Rattle.std.specs.Prelude.{◌≡◌, [], ◌∷◌, length};
ghost use Rattle.records.specs.Meaning.Numbers.{zeros};
ghost use Rattle.board_bytes.specs.Promises.ByteCalls.{LoadCall, StepCall, RewindCall, UnloadCall};
ghost use Rattle.hundlezoqa_c.specs.Promises.Library.{ReportsSupervisor, ReportsGuard, ReportsForecast, ReportsForced, ReportsListing};

use board_bytes::BoardBytes;
use board_bytes::numbers::{Figures, report};
use card::Card;
use card_words::{CardWords, write_card};
use forced::make::Forcing;
use forecast::make::Forecast;
use guard::make::Guard;
use records::numbered::answer_number;
use report::Report;
use supervisor::make::Supervisor;

// Makes a supervisor table.
#[unsafe(no_mangle)]
pub extern "C" fn hz_make_supervisor_2(
    sheet: &[u8],
    res: &mut [u8],
    tuples: &mut [u64],
    cells: &mut [u16],
    dropped: &mut [u16],
    figures: &mut [u64; Figures::MADE],
) -> u32
    ensures made { ReportsSupervisor sheet.now res.old
        (length tuples.old ∷ length cells.old ∷ length dropped.old ∷ []) res.new result
        figures.new }
    ensures tuples { tuples.new ≡ zeros (length tuples.old) }
    ensures cells { cells.new ≡ zeros (length cells.old) }
    ensures dropped { dropped.new ≡ zeros (length dropped.old) }
{
    let made = Supervisor::make(sheet, res, tuples, cells, dropped);
    report(made, figures)
}

// Makes a guard table.
#[unsafe(no_mangle)]
pub extern "C" fn hz_make_guard_2(
    sheet: &[u8],
    res: &mut [u8],
    tuples: &mut [u64],
    cells: &mut [u16],
    dropped: &mut [u16],
    gains: &mut [u16],
    bonuses: &mut [u16],
    values: &mut [u64],
    arrivals: &mut [u64],
    order: &mut [u16],
    numbers: &mut [u16],
    figures: &mut [u64; Figures::MADE],
) -> u32
    ensures made { ReportsGuard sheet.now res.old
        (length tuples.old ∷ length cells.old ∷ length dropped.old ∷ length gains.old ∷
        length bonuses.old ∷ length values.old ∷ length arrivals.old ∷
        length order.old ∷ length numbers.old ∷ []) res.new result
        figures.new }
    ensures tuples { tuples.new ≡ zeros (length tuples.old) }
    ensures cells { cells.new ≡ zeros (length cells.old) }
    ensures dropped { dropped.new ≡ zeros (length dropped.old) }
    ensures gains { gains.new ≡ zeros (length gains.old) }
    ensures bonuses { bonuses.new ≡ zeros (length bonuses.old) }
    ensures values { values.new ≡ zeros (length values.old) }
    ensures arrivals { arrivals.new ≡ zeros (length arrivals.old) }
    ensures order { order.new ≡ zeros (length order.old) }
    ensures numbers { numbers.new ≡ zeros (length numbers.old) }
{
    let made = Guard::make(
        sheet, res, tuples, cells, dropped, gains, bonuses, values, arrivals, order, numbers,
    );
    report(made, figures)
}

// Makes a forecast card, in words.
#[tactic(auto, using(crate::proofs::Numbers::card_given, crate::proofs::Numbers::made_numbers))]
#[unsafe(no_mangle)]
pub extern "C" fn hz_forecast_1025(
    sheet: &[u8],
    tuples: &mut [u64],
    cells: &mut [u16],
    dropped: &mut [u16],
    gains: &mut [u16],
    bonuses: &mut [u16],
    bests: &mut [u64],
    leasts: &mut [u64],
    highs: &mut [u64],
    lows: &mut [u64],
    card: &mut [u64; CardWords::LENGTH],
) -> u32
    ensures made { ReportsForecast sheet.now
        (length tuples.old ∷ length cells.old ∷ length dropped.old ∷ length gains.old ∷
        length bonuses.old ∷ length bests.old ∷ length leasts.old ∷
        length highs.old ∷ length lows.old ∷ []) result card.new }
    ensures tuples { tuples.new ≡ zeros (length tuples.old) }
    ensures cells { cells.new ≡ zeros (length cells.old) }
    ensures dropped { dropped.new ≡ zeros (length dropped.old) }
    ensures gains { gains.new ≡ zeros (length gains.old) }
    ensures bonuses { bonuses.new ≡ zeros (length bonuses.old) }
    ensures bests { bests.new ≡ zeros (length bests.old) }
    ensures leasts { leasts.new ≡ zeros (length leasts.old) }
    ensures highs { highs.new ≡ zeros (length highs.old) }
    ensures lows { lows.new ≡ zeros (length lows.old) }
{
    let made = Forecast::make(
        sheet, tuples, cells, dropped, gains, bonuses, bests, leasts, highs, lows,
    );
    match made {
        Ok(made_card) => write_card(made_card, card),
        Err(_) => write_card(Card::lost(), card),
    }
    answer_number(made) as u32
}

// Shows how a break is forced.
#[tactic(auto, using(crate::proofs::Reported::play_figures))]
#[unsafe(no_mangle)]
pub extern "C" fn hz_forced_2(
    sheet: &[u8],
    res: &mut [u8],
    tuples: &mut [u64],
    cells: &mut [u16],
    dropped: &mut [u16],
    figures: &mut [u64; Figures::MADE],
) -> u32
    ensures made { ReportsForced sheet.now res.old
        (length tuples.old ∷ length cells.old ∷ length dropped.old ∷ []) res.new result
        figures.new }
    ensures tuples { tuples.new ≡ zeros (length tuples.old) }
    ensures cells { cells.new ≡ zeros (length cells.old) }
    ensures dropped { dropped.new ≡ zeros (length dropped.old) }
{
    let forced = Forcing::make(sheet, res, tuples, cells, dropped);
    report(forced, figures)
}

// Loads a table.
#[unsafe(no_mangle)]
pub extern "C" fn hz_load_16(board: &mut [u8; BoardBytes::LENGTH], table: &[u8]) -> u32
    ensures { LoadCall board.old table.now result board.new }
{
    board_bytes::load(board, table)
}

// Answers an input: the number, and 65,536 times the output.
#[unsafe(no_mangle)]
pub extern "C" fn hz_step_16(board: &mut [u8; BoardBytes::LENGTH], table: &[u8], input: u8) -> u32
    ensures { StepCall board.old table.now input result board.new }
{
    board_bytes::step(board, table, input)
}

// Begins the run anew.
#[unsafe(no_mangle)]
pub extern "C" fn hz_rewind_16(board: &mut [u8; BoardBytes::LENGTH]) -> u32
    ensures { RewindCall board.old result board.new }
{
    board_bytes::rewind(board)
}

// Empties the board.
#[unsafe(no_mangle)]
pub extern "C" fn hz_unload_16(board: &mut [u8; BoardBytes::LENGTH]) -> u32
    ensures { UnloadCall board.old result board.new }
{
    board_bytes::unload(board)
}

// Lists a guard table as text.
#[unsafe(no_mangle)]
pub extern "C" fn hz_list_1(
    table: &[u8],
    text: &mut [u8],
    figures: &mut [u64; Figures::LISTED],
) -> u32
    ensures { ReportsListing table.now text.old text.new result figures.new }
{
    let listed = Report::list(table, text);
    *figures = [Report::length(listed) as u64];
    answer_number(listed) as u32
}
