// A record as bytes: whether it is good, its lists, and its page.
ghost use Rattle.std.specs.Prelude.{◌≡◌};
ghost use Rattle.record.specs.Answers.{checked_of};
ghost use Rattle.record.specs.Document.{reading_of};
ghost use Rattle.record.specs.Tables.{tables};
ghost use Rattle.page.specs.Page.{page_of};
ghost use Rattle.host.specs.Results.{header_told};
ghost use Rattle.host_bytes.specs.Told.{ReadTold, PageTold};

use checking::whole::check;
use host::results::{HeaderTold, LengthTold};
use page::whole::write_page;
use reading::tables::read;

// Whether the bytes are a good record: 1 to 6.
#[unsafe(no_mangle)]
pub extern "C" fn ricecrock_bytes_check(bytes: &[u8]) -> HeaderTold
    ensures { result ≡ header_told (checked_of (reading_of bytes.now)) }
{
    check(bytes).into()
}

// Into lists with room for any record; later entries stay: 7, then 1 to 6.
#[unsafe(no_mangle)]
pub extern "C" fn ricecrock_bytes_read(
    bytes: &[u8],
    losses: &mut [u16],
    editors: &mut [u8],
    times: &mut [u16],
    cells: &mut [u32],
    changes: &mut [i16],
) -> HeaderTold
    ensures { ReadTold bytes.now
        (tables losses.old editors.old times.old cells.old changes.old) result
        (tables losses.new editors.new times.new cells.new changes.new) }
{
    read(bytes, losses, editors, times, cells, changes).into()
}

// The lister's page of a record, a bad one's too: 7.
#[unsafe(no_mangle)]
pub extern "C" fn ricecrock_bytes_page(bytes: &[u8], out: &mut [u8]) -> LengthTold
    ensures { PageTold (page_of (reading_of bytes.now)) out.old result out.new }
{
    write_page(bytes, out).into()
}
