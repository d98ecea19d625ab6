// The C interface: pages of angles, their answers by the papers' numbers.
ghost use Rattle.std.specs.Prelude.{◌≡◌, length};
ghost use Rattle.std.specs.Float.{binary64};
ghost use Rattle.std.specs.Float.Ieee.{of_bits};
ghost use Rattle.sheet.specs.Bytes as Bytes;
ghost use Rattle.sheet.specs.Refusals as Refusals;
ghost use Rattle.page.specs.Decimal as Decimal;
ghost use Rattle.page.specs.Operation as Operation;

use crate::numbers::signed_number;
use float::number::of_bits;

// Success fills the first bytes of the text with the page; its rest, and all of it on refusal, is
// left. After every answer each work place is +0.0.
#[tactic(auto, using(crate::proofs::Signed::signed_page, crate::proofs::of_page::Room::small_page))]
#[unsafe(no_mangle)]
pub extern "C" fn page_text(sheet: &[u8], page: u64, work: &mut [f64], text: &mut [u8]) -> i64
    ensures value { result ≡ Refusals.signed (Operation.answer sheet.now page (length work.old) (length text.old)) }
    ensures text_after { text.new ≡
        Operation.text_after (Operation.answer sheet.now page (length work.old) (length text.old))
        (Operation.text sheet.now page) text.old }
    ensures work_after { work.new ≡ Bytes.zeros (length work.old) }
{
    signed_number(page::page::page_text(sheet, page, work, text))
}

// Columns 27 to 42 of the float of bits x in the first 16 bytes, and 16; or -42, and the text left, if
// it has fewer.
#[tactic(auto, using(crate::proofs::Signed::signed_page, crate::proofs::of_page::Room::small_decimal))]
#[unsafe(no_mangle)]
pub extern "C" fn page_decimal(x: u64, text: &mut [u8]) -> i64
    ensures value { result ≡ Refusals.signed (Operation.decimal_answer (length text.old)) }
    ensures text_after { text.new ≡
        Operation.text_after (Operation.decimal_answer (length text.old)) (Decimal.decimal (of_bits binary64 x)) text.old }
{
    signed_number(page::decimal::decimal_text(of_bits(x), text))
}
