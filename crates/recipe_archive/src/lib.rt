// The functions of recipe_calls for C and Rust to link, beside `alu_call` of calls_c; bindings/c/gromavelush.h declares them. Each hands its
// arguments on, and promises word for word what that of recipe_calls promises. They are a crate of their own because a static library can't be
// used by another crate.
#![tactic(auto)]

ghost use Rattle.std.specs.Prelude.{◌≡◌};
ghost use Rattle.text.specs.Wrote.{written, writing};
ghost use Rattle.recipes.specs.Printer.{listing_text, answer_of};
ghost use Rattle.recipe_calls.specs.Words.{first_of};
ghost use Rattle.recipe_calls.specs.Calls.{row_left, state_left, rack_left, translate_words, run_words, rack_words, recipe_run_words};

use recipe_calls::TOLD;

#[unsafe(no_mangle)]
pub extern "C" fn recipe_translate(text: &[u8], listing: &mut [u64], told: &mut [u64; TOLD])
    ensures { row_left listing.new told.new ≡ translate_words text.now listing.old }
{
    recipe_calls::recipe_translate(text, listing, told);
}

#[unsafe(no_mangle)]
pub extern "C" fn listing_run(
    listing: &[u64],
    d: &mut [u32; 8],
    a: &mut [u32; 8],
    flags: &mut u8,
    start: usize,
    budget: u32,
    told: &mut [u64; TOLD],
)
    ensures { state_left d.new a.new flags.new told.new ≡ run_words listing.now d.old a.old flags.old start budget }
{
    recipe_calls::listing_run(listing, d, a, flags, start, budget, told);
}

#[unsafe(no_mangle)]
pub extern "C" fn rack_run(
    listing: &[u64],
    d: &mut [u32],
    a: &mut [u32],
    flags: &mut [u8],
    starts: &[usize],
    budget: u32,
    answers: &mut [u64],
    told: &mut [u64; TOLD],
)
    ensures { rack_left d.new a.new flags.new answers.new told.new ≡ rack_words listing.now d.old a.old flags.old starts.now budget answers.old }
{
    recipe_calls::rack_run(listing, d, a, flags, starts, budget, answers, told);
}

#[unsafe(no_mangle)]
pub extern "C" fn listing_print(width: u8, listing: &[u64], out: &mut [u8]) -> usize
    ensures { written out.new result ≡ writing out.old 0 (listing_text width (first_of listing.now)) }
{
    recipe_calls::listing_print(width, listing, out)
}

#[unsafe(no_mangle)]
pub extern "C" fn recipe_answer(text: &[u8], out: &mut [u8]) -> usize
    ensures { written out.new result ≡ writing out.old 0 (answer_of text.now) }
{
    recipe_calls::recipe_answer(text, out)
}

#[unsafe(no_mangle)]
pub extern "C" fn recipe_run(
    text: &[u8],
    d: &mut [u32; 8],
    a: &mut [u32; 8],
    flags: &mut u8,
    told: &mut [u64; TOLD],
)
    ensures { state_left d.new a.new flags.new told.new ≡ recipe_run_words text.now d.old a.old flags.old }
{
    recipe_calls::recipe_run(text, d, a, flags, told);
}
