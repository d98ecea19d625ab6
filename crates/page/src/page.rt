// The operation Page: a page of a checked sheet's angles as text.
ghost use Rattle.std.specs.Prelude.{◌≡◌, ◌&&◌, ◌+◌, ◌*◌, ◌≤◌, leb, length};
ghost use Rattle.std.proofs.lemmas.List.Edits.{sets};
ghost use Rattle.sheet.specs.Bytes as Bytes;
ghost use Rattle.page.specs.Page as Page;
ghost use Rattle.page.specs.Operation as Operation;
ghost use Rattle.page.specs.Promises.Sheets as Sheets;

use crate::lines::{LINE, put_head, put_lines};
use crate::refusals::Refusal;
use sheet::check::check;
use sheet::request::NAME;
use sheet::trailer::TRAILER;

// The angles of a page; on the last stand those that remain.
pub const PER_PAGE: usize = 60;

// How many pages n angles take; without angles there is one.
pub fn pages(n: usize) -> usize
    ensures { result ≡ Page.pages n }
{
    n.div_ceil(PER_PAGE).max(1)
}

// A checked sheet, and how many angles it lists.
#[derive(Clone, Copy)]
pub struct Paged<'a> {
    pub sheet: &'a [u8],
    pub n: usize,
    ghost paged: { Sheets.Paged sheet.now n },
}

impl<'a> Paged<'a> {
    // How many pages the angles take.
    pub fn pages(self) -> usize
        ensures { result ≡ Page.pages self.entry.n }
    {
        pages(self.n)
    }

    // Whether there is a page of this number.
    fn has(self, page: u64) -> bool
        ensures { result ≡ leb 1 page && leb page (Page.pages self.entry.n) }
    {
        (1 <= page) & (page <= self.pages() as u64)
    }

    // How many angles stand on page k.
    fn angles_on(self, k: usize) -> usize
        requires { (1 ≤ k) × (k ≤ Page.pages self.n) }
        ensures { result ≡ Sheets.angles_on self.entry.n k }
    {
        (self.n - PER_PAGE * (k - 1)).min(PER_PAGE)
    }

    fn name(self) -> &'a [u8]
        ensures { result.now ≡ Operation.name_of self.entry.sheet.now }
    {
        &self.sheet[8 * self.n + NAME..self.sheet.len() - TRAILER]
    }

    // Page k.
    #[tactic(auto, using(crate::proofs::Stores::text_is))]
    pub fn put_page(self, text: &mut [u8], k: usize)
        requires { (1 ≤ k) × (k ≤ Page.pages self.n) × (length text.old ≡ 65 + 65 * Sheets.angles_on self.n k) }
        ensures { text.new ≡ Operation.text self.entry.sheet.now k }
    {
        let first = PER_PAGE * (k - 1);
        let end = first + self.angles_on(k);
        let (head, lines) = text.split_at_mut(LINE);
        put_head(head, self.name());
        put_lines(lines, &self.sheet[8 * first..8 * end], first + 1);
    }

    // 43, 42, and else the page.
    #[tactic(auto, using(crate::proofs::Answers::laid_none, crate::proofs::Answers::laid_short, crate::proofs::Answers::laid_text))]
    fn lay(self, text: &mut [u8], page: u64) -> Result<usize, Refusal>
        ensures result_value { Operation.answer_of result ≡ Operation.laid self.entry.sheet.now page (length text.old) }
        ensures text_after { text.new ≡ Operation.text_after (Operation.answer_of result) (Operation.text self.entry.sheet.now page) text.old }
    {
        if !self.has(page) {
            return Err(Refusal::NoPage);
        }
        let k = page as usize;
        let size = LINE + LINE * self.angles_on(k);
        if text.len() < size {
            return Err(Refusal::Short);
        }
        self.put_page(&mut text[..size], k);
        Ok(size)
    }
}

// Page k of a checked sheet with n angles, from `at` on in a text that may be longer.
#[tactic(auto, using(crate::proofs::Answers::text_placed))]
pub fn put_page(text: &mut [u8], at: usize, sheet: &[u8], n: usize, k: usize)
    requires paged { Sheets.Paged sheet.now n }
    requires le_k { (1 ≤ k) × (k ≤ Page.pages n) × (at + (65 + 65 * Sheets.angles_on n k) ≤ length text.old) }
    ensures { text.new ≡ sets text.old at (Operation.text sheet.now k) }
{
    let paged = Paged { sheet, n };
    let end = at + (LINE + LINE * paged.angles_on(k));
    paged.put_page(&mut text[at..end], k);
}

// The operation Page: how many bytes the text has, or the first refusal. After every answer each work place is +0.0.
#[tactic(auto, using(crate::proofs::Answers::answer_checked, crate::proofs::Answers::answer_refused))]
pub fn page_text(
    sheet: &[u8],
    page: u64,
    work: &mut [f64],
    text: &mut [u8],
) -> Result<usize, Refusal>
    ensures result_value { Operation.answer_of result ≡ Operation.answer sheet.now page (length work.old) (length text.old) }
    ensures text_after { text.new ≡ Operation.text_after (Operation.answer_of result) (Operation.text sheet.now page) text.old }
    ensures work_after { work.new ≡ Bytes.zeros (length work.old) }
{
    let n = check(sheet, work)?;
    Paged { sheet, n }.lay(text, page)
}
