// A test program: prints the matrices and fingerprints of lists, tables, and what tables answer, for comparison with
// the original. Each line of standard input begins with a word:
//   list WIDTH COUNT CODES..       prints `K FINGERPRINT COEFFICIENTS..`, the fingerprint as 16 hexadecimal digits and
//                                  the coefficients in the order of the lent places, or `refused N P`
//   table Q G E B                  builds in arrays of 100,000 places, and prints for each width `table WIDTH ENTRIES
//                                  DEPTH SATURATED` and then its nodes, each a line `FINGERPRINT PARENT CODE`; or
//                                  `refused N 0`
//   clashes Q G E B                as `table`, in the mode that keeps clashing nodes
//   matrix WIDTH K COEFFICIENTS..  asks the table at hand, with a lent list of 64 places, and prints `FINGERPRINT
//                                  none`, `FINGERPRINT COUNT CODES..` or `refused N 0`
//   find WIDTH K COEFFICIENTS..    the node that the table at hand has for a matrix: prints `NODE COUNT`, the count
//                                  that of its gates, `none` or `refused N 0`
//   write WIDTH NODE PLACES        the list of a node of the table at hand, with a lent list of PLACES places, at most
//                                  64: prints `COUNT CODES..` or `refused N 0`
//   index M                        from here on tables are built, and matrices looked up, by an index whose parts have
//                                  2^M places each, M at most 18; its places are empty until a build or a `fill`:
//                                  prints `index M`
//   scan                           from here on the scan is used, as at first: prints `scan`
//   places                         the index of the table at hand: prints for each width `places WIDTH`, and then a
//                                  line `PLACE NODE` for each place of its part that is not empty
//   fill                           clears the index and fills it from the table at hand: prints `fill` or `refused N 0`
// The table at hand is that of the last `table` or `clashes` line; with no such line, or if it was refused, a line that
// asks it prints `refused 14 0`. So do `places` and `fill` while the scan is used. Numbers and lines are those of the
// program `circuits`, and a line of another form prints `refused 14 0`. The COUNT of a list is up to 256, K up to
// 65535. A coefficient is such a number, after a `-` or not, from -32768 to 32767; there are at most 4097. More than 1
// MiB of input prints `refused 15 0` alone. A read or a write that fails ends the program with its error.
// The index has 524,288 places. Where Q x 2^M is more, `table` and `clashes` print `refused 14 0` before the build
// checks anything but whether Q is 1 to 5, and forget the table at hand; `fill`, `places`, `matrix` and `find` print it
// too.
//
// Each group of words has a crate: inspect_lists, inspect_tables, inspect_asks, inspect_index. This program has a
// line's first word read (inspect_words) and hands the rest on: a further group is a case of `First`, proved by itself.
// All arrays stand on the stack, of which it needs 4,780 kB (it ran with `ulimit -s 4780`, and not with 4770). Systems
// usually give 8,192, and what is left is for the arrays of further words.
#![tactic(auto)]

ghost use Rattle.std.specs.Prelude.{◌≤◌, IfOk, length};

use circuits_text::NEWLINE;
use index::LookupBy;
use inspect_room::{Arrays, Lookup};
use inspect_words::First;
use murm_config::Murm;
use refusal::Refusal;
use std::io;

// What is at hand: the look-up, the last table, and what the last line did to the index.
#[derive(Clone, Copy)]
struct State {
    lookup: Lookup,
    table: Result<Murm, Refusal>,
    filling: Result<(), Refusal>,
}

fn first_state() -> State {
    State {
        lookup: Lookup {
            by: LookupBy::Scan,
            size: 1,
        },
        table: Err(Refusal::BrokenLine),
        filling: Ok(()),
    }
}

// The look-up after a line.
fn lookup_after(word: First, last: Lookup) -> Lookup {
    match word {
        First::Index(w) => inspect_index::lookup_after(w, last),
        _ => last,
    }
}

// The table after a line.
fn table_after(
    word: First,
    lookup: Lookup,
    last: Result<Murm, Refusal>,
    fingerprints: &mut [u64],
    parents: &mut [u32],
    codes: &mut [u32],
    index: &mut [u32],
    rest: &[u8],
) -> Result<Murm, Refusal> {
    let First::Table(mode) = word else {
        return last;
    };
    inspect_tables::build_line(mode, lookup, rest, fingerprints, parents, codes, index)
}

// What a line does to the index besides a build.
fn index_after(
    word: First,
    lookup: Lookup,
    table: Result<Murm, Refusal>,
    arrays: Arrays<'_>,
    index: &mut [u32],
) -> Result<(), Refusal> {
    let First::Index(w) = word else {
        return Ok(());
    };
    inspect_index::index_after(w, lookup, table, arrays, index)
}

// The state after a line.
fn after(
    word: First,
    last: State,
    fingerprints: &mut [u64],
    parents: &mut [u32],
    codes: &mut [u32],
    index: &mut [u32],
    rest: &[u8],
) -> State {
    let before = last.lookup;
    let built = last.table;
    let lookup = lookup_after(word, before);
    let table = table_after(
        word,
        lookup,
        built,
        fingerprints,
        parents,
        codes,
        index,
        rest,
    );
    let arrays = Arrays {
        fingerprints,
        parents,
        codes,
    };
    let filling = index_after(word, lookup, table, arrays, index);
    State {
        lookup,
        table,
        filling,
    }
}

// What a line prints.
fn put_line(
    rt: &impl Print,
    word: First,
    state: State,
    arrays: Arrays<'_>,
    index: &[u32],
    rest: &[u8],
    out: &mut [u8],
    at: usize,
) -> io::Result<usize>
    requires { (at ≤ 16346) × (65536 ≤ length out.old) }
    ensures { IfOk result (λ n. n ≤ 65536) }
{
    let lookup = state.lookup;
    let table = state.table;
    let filling = state.filling;
    match word {
        First::List => Ok(inspect_lists::put_list_line(rest, out, at)),
        First::Table(_) => inspect_tables::put_table(rt, table, arrays, out, at),
        First::Asks(what) => Ok(inspect_asks::put_asked(
            what, lookup, table, arrays, index, rest, out, at,
        )),
        First::Index(w) => {
            inspect_index::put_index_word(rt, w, lookup, table, filling, index, out, at)
        }
        First::Other => Ok(circuits_lines::put_refused(out, at, Refusal::BrokenLine)),
    }
}

// Each line of the input.
fn lines(
    rt: &impl Print,
    input: &[u8],
    fingerprints: &mut [u64],
    parents: &mut [u32],
    codes: &mut [u32],
    index: &mut [u32],
    out: &mut [u8],
) -> io::Result<()>
    requires { 65536 ≤ length out.old }
{
    let mut filled = 0;
    let mut state = first_state();
    let mut at = 0;
    // A `while`, as each step goes to the byte after the newline that was found.
    while at < input.len() {
        let next = inspect_room::make_room(rt, out, filled)?;
        let e = circuits_text::find(input, at, NEWLINE);
        let begun = inspect_words::begin(input, at, e);
        let word = begun.word;
        let rest = begun.rest;
        state = after(
            word,
            state,
            fingerprints,
            parents,
            codes,
            index,
            &input[rest..e],
        );
        let arrays = Arrays {
            fingerprints,
            parents,
            codes,
        };
        filled = put_line(rt, word, state, arrays, index, &input[rest..e], out, next)?;
        at = e + 1;
    }
    rt.write_all(&out[..filled])
}

// The longest input, one byte more than which is read.
const MOST: usize = 1048576;

// The input's lines, with arrays for the nodes that the widths of a table have together, and an index. The arrays are
// locals: one that a function returns may stand on the stack three times, and these take most of it.
fn answer(rt: &impl Print, input: &[u8]) -> io::Result<()> {
    let mut out = [0u8; 65536];
    let mut fingerprints = [0u64; 100000];
    let mut parents = [0u32; 100000];
    let mut codes = [0u32; 100000];
    let mut index = [0u32; 524288];
    lines(
        rt,
        input,
        &mut fingerprints,
        &mut parents,
        &mut codes,
        &mut index,
        &mut out,
    )
}

fn main(rt: HostRuntime) -> io::Result<()> {
    let mut input = [0u8; 1048577];
    let n = input_bytes::fill(&mut rt.reader(), &mut input)?;
    if MOST < n {
        return rt.write_all(b"refused 15 0\n");
    }
    answer(&rt, &input[..n])
}
