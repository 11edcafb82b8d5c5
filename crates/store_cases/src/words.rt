//! The packed word of a buffer: `WORD -> maxed=BOOL mk_maxed=WORD ..`, each function of it in turn; `-` where a call asks
//! for what the word hasn't.

use case_lines::lines::Words;
use case_lines::texts::Text;
use sled_store::header::{
    Header, MAX_WRITERS, bump_salt, decr_writers, incr_writers, is_maxed, is_sealed, mk_maxed,
    mk_sealed, n_writers, offset, salt,
};

/// Writes what came of a line.
pub fn answer(words: &mut Words<'_>, out: &mut Text) {
    let word = words.number();
    flags(word, out);
    counts(word, out);
    changes(word, out);
}

// The flags of a word, and the word with one set.
fn flags(word: Header, out: &mut Text) {
    out.push("maxed=");
    out.truth(is_maxed(word));
    out.push(" mk_maxed=");
    out.number(mk_maxed(word));
    out.push(" sealed=");
    out.truth(is_sealed(word));
    out.push(" mk_sealed=");
    out.number(mk_sealed(word));
}

// The numbers in a word, and the word of the next use.
fn counts(word: Header, out: &mut Text) {
    out.push(" writers=");
    out.number(n_writers(word));
    out.push(" offset=");
    out.number(offset(word) as u64);
    out.push(" salt=");
    out.number(salt(word));
    out.push(" bump_salt=");
    out.number(bump_salt(word));
}

// The word with a writer more and one fewer.
fn changes(word: Header, out: &mut Text) {
    let (mut more, mut fewer) = (None, None);
    if n_writers(word) < MAX_WRITERS {
        more = Some(incr_writers(word));
    }
    if n_writers(word) > 0 {
        fewer = Some(decr_writers(word));
    }
    out.push(" incr=");
    out.number_or_dash(more);
    out.push(" decr=");
    out.number_or_dash(fewer);
}
