// A whole record, looked through: is it good, and what does it begin with. Document 01, "The record" and
// "Refusal numbers": the first faulty number in byte order decides.
ghost use Rattle.std.specs.Prelude.{◌≡◌};
ghost use Rattle.record.specs.Document.{reading_of};
ghost use Rattle.record.specs.Answers.{checked_of};

use farm::refusals::Refusal;
use parts::edit_reader::check_edits;
use parts::header_reader::read_header;
use parts::loss_reader::check_losses;
use record::header::Header;

// Whether the bytes are a good record. The losses are read from the part after the header, and the
// edits from the part after the losses, where they stand.
pub fn check(bytes: &[u8]) -> Result<Header, Refusal>
    ensures { result ≡ checked_of (reading_of bytes.now) }
{
    let (header, after_header) = read_header(bytes)?;
    let losses = &bytes[after_header.at..];
    let after_losses = check_losses(losses, header.seats, header.rounds)?;
    let edits = &losses[after_losses.at..];
    let after_edits = check_edits(edits, header.seats, header.rounds, header.edits)?;
    if after_edits.at < edits.len() {
        return Err(Refusal::BytesLeft);
    }
    Ok(header)
}
