// Runs the words of documents 01 and 02, and what they say of marks, symbols and lengths. Each case is one line: its name, the refusal or 0, the
// value or 0, and what the lent memory holds afterwards. The file `stdout` has what the document says.
#![tactic(auto)]

use field::{Exponent, Question};

// A line: the name of the case, the refusal and the value of the answer, and the bytes. What could not be written is seen by whoever compares
// it with the file `stdout`.
fn show(rt: &HostRuntime, name: &str, answer: Result<u8, Question>, bytes: &[u8]) {
    let _ = match answer {
        Ok(x) => print!(rt; "{name}: 0 {x}"),
        Err(q) => print!(rt; "{name}: {} 0", field::refusal_number(q)),
    };
    for b in bytes {
        let _ = print!(rt; " {b}");
    }
    let _ = println!(rt; "");
}

// ---- the calls, each with what it answers

fn show_answer(rt: &HostRuntime, name: &str, answer: Result<u8, Question>) {
    show(rt, name, answer, &[]);
}

fn encode(rt: &HostRuntime, name: &str, width: u8, message: &[u8]) {
    let mut word = [200u8; 12];
    let verdict = code::encode(width, message, &mut word);
    show(rt, name, verdict.map(|()| 0), &word);
}

fn test(rt: &HostRuntime, name: &str, width: u8, word: &[u8]) {
    show_answer(rt, name, code::is_codeword(width, word).map(u8::from));
}

fn read(rt: &HostRuntime, name: &str, width: u8, word: &[u8]) {
    let mut message = [200u8; 7];
    let verdict = code::read_data(width, word, &mut message);
    show(rt, name, verdict.map(|()| 0), &message);
}

fn restore_slice(rt: &HostRuntime, name: &str, width: u8, word: &mut [u8], marks: &[u8]) {
    let answer = code::restore(width, word, marks);
    show(rt, name, answer, word);
}

fn restore(rt: &HostRuntime, name: &str, mut word: [u8; 12], marks: &[u8]) {
    restore_slice(rt, name, 3, &mut word, marks);
}

fn restore_four(rt: &HostRuntime, name: &str, mut word: [u8; 20], marks: &[u8]) {
    restore_slice(rt, name, 4, &mut word, marks);
}

// A word of width 3 through the encoder, the codeword test, the reader of data and the restorer.
fn codeword(rt: &HostRuntime, name: &str, word: [u8; 12]) {
    let _ = print!(rt; "encode ");
    encode(rt, name, 3, &word[5..]);
    let _ = print!(rt; "test ");
    test(rt, name, 3, &word);
    let _ = print!(rt; "read ");
    read(rt, name, 3, &word);
    let _ = print!(rt; "restore ");
    restore(rt, name, word, &[]);
}

// ---- the cases

fn field_calls(rt: &HostRuntime) {
    show_answer(rt, "sum 5 6", field::sum(3, 5, 6));
    show_answer(rt, "sum at width 6", field::sum(6, 5, 6));
    show_answer(rt, "sum 8 0", field::sum(3, 8, 0));
    show_answer(rt, "product 2 5", field::product(3, 2, 5));
    show_answer(rt, "product at width 6", field::product(6, 2, 5));
    show_answer(rt, "product 0 8", field::product(3, 0, 8));
    show_answer(rt, "power 0", field::power(3, 2, Exponent(0)));
    show_answer(rt, "power 1", field::power(3, 2, Exponent(1)));
    show_answer(rt, "power 2", field::power(3, 2, Exponent(2)));
    show_answer(rt, "power 3", field::power(3, 2, Exponent(3)));
    show_answer(rt, "power 4", field::power(3, 2, Exponent(4)));
    show_answer(rt, "power 5", field::power(3, 2, Exponent(5)));
    show_answer(rt, "power 6", field::power(3, 2, Exponent(6)));
    show_answer(rt, "power 0 of 0", field::power(3, 0, Exponent(0)));
    show_answer(rt, "power at width 6", field::power(6, 2, Exponent(0)));
    show_answer(rt, "power 0 of 8", field::power(3, 8, Exponent(0)));
    show_answer(rt, "inverse of 2", field::inverse(3, 2));
    show_answer(rt, "inverse of 0", field::inverse(3, 0));
    show_answer(rt, "inverse at width 6", field::inverse(6, 0));
    show_answer(rt, "inverse of 8", field::inverse(3, 8));
}

fn codewords(rt: &HostRuntime) {
    codeword(rt, "A", [0, 0, 0, 0, 0, 0, 0, 0, 0, 0, 0, 0]);
    codeword(rt, "B", [1, 1, 1, 1, 1, 1, 0, 0, 0, 0, 0, 0]);
    codeword(rt, "C", [1, 2, 4, 3, 6, 0, 1, 0, 0, 0, 0, 0]);
    codeword(rt, "D", [1, 0, 0, 0, 0, 1, 1, 1, 1, 1, 1, 1]);
    codeword(rt, "E", [2, 7, 5, 6, 1, 3, 0, 1, 0, 0, 0, 0]);
}

fn restored_words(rt: &HostRuntime) {
    restore(rt, "F", [0, 0, 0, 0, 0, 1, 0, 0, 0, 0, 0, 0], &[]);
    restore(rt, "G", [7, 0, 0, 0, 0, 7, 0, 0, 0, 0, 0, 0], &[]);
    restore(rt, "H", [1, 1, 1, 0, 0, 0, 0, 0, 0, 0, 0, 0], &[]);
    restore(rt, "I", [0, 1, 1, 0, 0, 0, 0, 0, 0, 0, 0, 0], &[0]);
    restore(rt, "J", [0, 0, 0, 0, 0, 0, 0, 5, 0, 0, 0, 0], &[0, 1]);
    restore(rt, "K", [0, 0, 0, 0, 0, 0, 0, 5, 0, 0, 0, 0], &[0, 1, 2]);
    restore(rt, "L", [1, 0, 0, 0, 0, 1, 1, 1, 1, 1, 1, 1], &[5]);
    restore(rt, "M", [1, 2, 0, 3, 6, 0, 0, 0, 0, 0, 0, 0], &[2, 5, 6, 8]);
    restore(rt, "N", [0, 0, 0, 0, 1, 0, 0, 0, 0, 0, 0, 0], &[0, 1, 2, 3]);
}

// The words of document 02 with five marks: several codewords, or none.
fn five_marks(rt: &HostRuntime) {
    restore(rt, "several", [0; 12], &[2, 4, 5, 6, 8]);
    restore(
        rt,
        "none of several",
        [1, 0, 0, 0, 0, 0, 0, 0, 0, 0, 0, 0],
        &[2, 4, 5, 6, 8],
    );
}

// What is asked before question 8, at its bounds.
fn restorer_bounds(rt: &HostRuntime) {
    let zeros = [0u8; 12];
    restore(rt, "mark 11", zeros, &[11]);
    restore(rt, "mark 12", zeros, &[12]);
    restore(rt, "four marks", zeros, &[0, 1, 2, 3]);
    restore(rt, "five marks", zeros, &[0, 1, 2, 3, 4]);
    restore(rt, "six marks", zeros, &[0, 1, 2, 3, 4, 5]);
    restore(rt, "marks 3, 3", zeros, &[3, 3]);
    restore(
        rt,
        "marks 3, 3 and an unmarked 8",
        [8, 0, 0, 0, 0, 0, 0, 0, 0, 0, 0, 0],
        &[3, 3],
    );
    restore(rt, "marks 12, 12", zeros, &[12, 12]);
    restore(rt, "unmarked 7", [0, 0, 0, 0, 0, 0, 0, 0, 0, 0, 0, 7], &[]);
    restore(rt, "unmarked 8", [0, 0, 0, 0, 0, 0, 0, 0, 0, 0, 0, 8], &[]);
    restore(
        rt,
        "marked 200",
        [0, 0, 0, 0, 0, 0, 0, 0, 0, 0, 0, 200],
        &[11],
    );
    restore_slice(rt, "length 11", 3, &mut [0; 11], &[]);
    restore_slice(rt, "length 13", 3, &mut [0; 13], &[]);
    restore_slice(rt, "width 6", 6, &mut [0; 12], &[]);
}

// The same of the other calls of the code.
fn other_bounds(rt: &HostRuntime) {
    encode(rt, "encode at width 6", 6, &[0; 7]);
    encode(rt, "encode 6 symbols", 3, &[0; 6]);
    encode(rt, "encode 8 symbols", 3, &[0; 8]);
    encode(rt, "encode the symbol 8", 3, &[8; 7]);
    test(rt, "test F", 3, &[0, 0, 0, 0, 0, 1, 0, 0, 0, 0, 0, 0]);
    test(rt, "test at width 6", 6, &[0; 12]);
    test(rt, "test length 11", 3, &[0; 11]);
    test(rt, "test length 13", 3, &[0; 13]);
    test(rt, "test the symbol 8", 3, &[8; 12]);
    read(rt, "read F", 3, &[0, 0, 0, 0, 0, 1, 0, 0, 0, 0, 0, 0]);
    read(rt, "read at width 6", 6, &[0; 12]);
    read(rt, "read length 11", 3, &[0; 11]);
    read(rt, "read length 13", 3, &[0; 13]);
    read(rt, "read the symbol 8", 3, &[8; 12]);
}

// Width 4: the calls of the field, and document 02's codeword with c_0, c_5, c_10 and p_2.
fn width_four(rt: &HostRuntime) {
    show_answer(rt, "sum at width 4", field::sum(4, 9, 12));
    show_answer(rt, "sum 16 0 at width 4", field::sum(4, 16, 0));
    show_answer(rt, "product at width 4", field::product(4, 8, 2));
    show_answer(rt, "power 15 at width 4", field::power(4, 2, Exponent(15)));
    show_answer(rt, "inverse of 2 at width 4", field::inverse(4, 2));
    let four = [0, 0, 1, 0, 0, 1, 0, 0, 0, 0, 6, 0, 0, 0, 0, 7, 0, 0, 0, 0];
    let mut word = [200u8; 20];
    let encoded = code::encode(4, &four[5..], &mut word);
    show(rt, "encode at width 4", encoded.map(|()| 0), &word);
    test(rt, "test at width 4", 4, &four);
    let mut message = [200u8; 15];
    let read = code::read_data(4, &four, &mut message);
    show(rt, "read at width 4", read.map(|()| 0), &message);
    restore_four(rt, "width 4", four, &[]);
    restore_four(rt, "width 4, mark 20", four, &[20]);
    restore_four(rt, "width 4, four marks", four, &[2, 5, 10, 15]);
}

// Words that differ from that codeword, at as many places as are restored or at more.
fn worn_four(rt: &HostRuntime) {
    restore_four(
        rt,
        "one wrong",
        [0, 0, 1, 0, 0, 1, 0, 9, 0, 0, 6, 0, 0, 0, 0, 7, 0, 0, 0, 0],
        &[],
    );
    restore_four(
        rt,
        "two wrong",
        [0, 0, 1, 0, 0, 0, 0, 0, 0, 0, 0, 0, 0, 0, 0, 7, 0, 0, 0, 0],
        &[],
    );
    restore_four(
        rt,
        "one mark, one wrong",
        [0, 0, 1, 0, 0, 200, 0, 0, 0, 0, 0, 0, 0, 0, 0, 7, 0, 0, 0, 0],
        &[5],
    );
    restore_four(
        rt,
        "two marks",
        [0, 0, 1, 0, 0, 0, 0, 0, 0, 0, 0, 0, 0, 0, 0, 7, 0, 0, 0, 0],
        &[10, 5],
    );
    restore_four(
        rt,
        "two marks, one wrong",
        [0, 0, 1, 0, 0, 0, 0, 0, 0, 0, 0, 0, 0, 0, 0, 8, 0, 0, 0, 0],
        &[10, 5],
    );
    restore_four(
        rt,
        "three marks",
        [0, 0, 1, 0, 0, 0, 0, 0, 0, 0, 0, 0, 0, 0, 0, 0, 0, 0, 0, 0],
        &[15, 5, 10],
    );
}

fn main(rt: HostRuntime) {
    field_calls(&rt);
    codewords(&rt);
    restored_words(&rt);
    five_marks(&rt);
    restorer_bounds(&rt);
    other_bounds(&rt);
    width_four(&rt);
    worn_four(&rt);
}
