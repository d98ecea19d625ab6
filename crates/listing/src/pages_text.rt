// What `show_pages` prints of its input.
ghost use Rattle.std.specs.Prelude.{◌≡◌, ◌+◌, ◌*◌, ◌-◌, length};
ghost use Rattle.page.specs.Page as Page;
ghost use Rattle.listing.specs.Listing as Listing;
ghost use Rattle.listing.specs.Pages as Pages;

use crate::check_text::{checked, print_refusal};
use crate::printed::print;
use page::lines::LINE;
use page::page::{PER_PAGE, Paged};

// A full page, and the same with the form feed behind it.
const FULL: usize = LINE * (PER_PAGE + 1);

const NEXT: usize = FULL + 1;

// All pages, a form feed between.
#[tactic(auto, using(crate::proofs::Pages::pages_turn, crate::proofs::Pages::pages_done, crate::proofs::Pages::pages_all))]
fn put_pages(text: &mut [u8], paged: Paged)
    requires { length text.old ≡ 65 * (paged.n + Page.pages paged.n) + (Page.pages paged.n - 1) }
    ensures { text.new ≡ Pages.all_pages paged.entry.sheet.now }
{
    let last = paged.pages();
    for k in 1..last {
        let at = NEXT * (k - 1);
        paged.put_page(&mut text[at..at + FULL], k);
        text[at + FULL] = 12;
    }
    paged.put_page(&mut text[NEXT * (last - 1)..], last);
}

// All pages, where they have room; how many bytes they are.
#[tactic(auto, using(crate::specs::Laws::Pages::length_all))]
fn print_pages(text: &mut [u8], paged: Paged) -> Option<usize>
    ensures value { result ≡ Listing.printed (Pages.all_pages paged.entry.sheet.now) (length text.old) }
    ensures text_after { text.new ≡ Listing.after (Pages.all_pages paged.entry.sheet.now) text.old }
{
    let last = paged.pages();
    let size = LINE * (paged.n + last) + (last - 1);
    if text.len() < size {
        return None;
    }
    put_pages(&mut text[..size], paged);
    Some(size)
}

// The text, in the first bytes of what is lent; how many bytes it has, where as many are lent.
#[tactic(auto, using(crate::proofs::Pages::too_long_is, crate::proofs::Pages::shown_is, crate::proofs::Pages::refused_is))]
pub fn pages_text(input: &[u8], text: &mut [u8]) -> Option<usize>
    ensures value { result ≡ Listing.printed (Pages.pages_text input.now) (length text.old) }
    ensures text_after { text.new ≡ Listing.after (Pages.pages_text input.now) text.old }
{
    let Some(checked) = checked(input) else {
        return print(text, b"too long\n", b"");
    };
    match checked {
        Ok(n) => print_pages(text, Paged { sheet: input, n }),
        Err(f) => print_refusal(text, f),
    }
}
