// The lister: one record from standard input, its page on standard output. Document 01, "The lister's
// page". What is wrong with the input itself is said on standard error.
#![tactic(auto)]

mod input; // input.rt: the bytes that are taken from standard input
mod listing; // listing.rt: the page of what was taken

use crate::listing::list_input;
use page::whole::PAGE_ROOM;
use std::io::Write;
use taking::reads::TAKEN;

// Nobody could be told that standard error cannot be written.
fn complain(rt: &HostRuntime, words: &[u8]) {
    let _ = rt.stderr().write_all(words);
}

fn unreadable(rt: &HostRuntime) {
    complain(rt, b"lister: standard input cannot be read\n");
}

// What a person may have meant otherwise. The page is printed all the same.
fn warn(rt: &HostRuntime, taken: usize) {
    if taken == 0 {
        complain(
            rt,
            b"lister: there is no input, which is the empty record\n",
        );
    }
    if taken == TAKEN {
        complain(
            rt,
            b"lister: the input has more than 4,990 bytes, of which 4,991 are taken\n",
        );
    }
}

fn print(rt: &HostRuntime, page: &[u8]) {
    if rt.stdout().write_all(page).is_err() {
        complain(rt, b"lister: the page cannot be written\n");
    }
}

fn main(rt: HostRuntime) {
    let mut record = [0; TAKEN];
    let mut page = [0; PAGE_ROOM];
    match list_input(&mut rt.stdin(), &mut record, &mut page) {
        Err(_) => unreadable(&rt),
        Ok(listed) => {
            warn(&rt, listed.taken);
            if let Ok(length) = listed.page {
                print(&rt, &page[..length]);
            }
        }
    }
}
