// The record, for C; include/lpmag.h documents each function. Parameters are C's.
#![tactic(auto)]

ghost use Rattle.std.specs.Prelude.{◌≡◌};
ghost use Rattle.record.specs.Frame.{kind_of, kind_number};
ghost use Rattle.record.specs.Layout.{packet_size, packet_bytes};
ghost use Rattle.record.specs.Rules.{broken};
ghost use Rattle.calls.specs.Contents.{FieldsGiven, back_fields};
ghost use Rattle.c_answers.specs.Answers.{Given};
ghost use Rattle.c_records.specs.Records.{library_version, WordsGiven};

use record::Record;
use shapes::CFields;

#[unsafe(no_mangle)]
pub extern "C" fn lpmag_version() -> u32
    ensures { result ≡ library_version }
{
    200
}

#[tactic(auto, unfolding(record::specs::Rules::refused_number))]
#[unsafe(no_mangle)]
pub extern "C" fn lpmag_check(r: &[u8]) -> u8
    ensures { result ≡ broken r.now }
{
    match record::check(r) {
        Ok(()) => 0,
        Err(refusal) => refusal.number(),
    }
}

#[unsafe(no_mangle)]
pub extern "C" fn lpmag_fields(fields: &mut CFields, r: &[u8]) -> u8
    ensures { FieldsGiven fields.old r.now (back_fields result fields.new) }
{
    let y = calls::fields(*fields, r);
    if y.answer == 0 {
        *fields = y.fields;
    }
    y.answer
}

#[unsafe(no_mangle)]
pub extern "C" fn lpmag_packet(r: &[u8], room: &mut [u8]) -> u8
    ensures { Given packet_size (packet_bytes r.now) r.now room.old result room.new }
{
    if room.len() != Record::PACKET_SIZE {
        return 1;
    }
    let n = lpmag_check(r);
    if n != 0 {
        return n;
    }
    buffers::copy(record::packet(r), room);
    0
}

#[unsafe(no_mangle)]
pub extern "C" fn lpmag_kind(packet: &[u8]) -> u8
    ensures { result ≡ kind_number (kind_of packet.now) }
{
    record::kind_of(packet).number()
}

#[unsafe(no_mangle)]
pub extern "C" fn lpmag_refusal_words(number: u8, room: &mut [u8]) -> usize
    ensures { WordsGiven number room.old result room.new }
{
    let end = listing::put_meaning(number, room, 0);
    if end == 0 {
        return 0;
    }
    end - 1
}
