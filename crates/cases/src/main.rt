// Answers questions about numbers, text and strings, and about requests as the functions over records have them; replies and the lister's
// text are asked of `reply_cases`, and what Rust calls in rust/tests/cases.rs. Standard input has a question a line, and standard output
// gets an answer a line; the file `stdout` beside `src` has what each is owed. The headings say what is asked, and what is answered;
// `questions` says how.

#![tactic(auto)]

mod answers;
mod outputs;
mod request;
mod sweeps;

fn main() {
    let mut line = questions::room();
    for _ in 0..u64::MAX {
        let n = questions::next_line(&mut line);
        if n == questions::ENDED {
            return;
        }
        answers::answer(questions::part(&line, 0, n));
    }
}
