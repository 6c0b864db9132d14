// The fields of a record.
ghost use Rattle.calls.specs.Contents.{FieldsGiven};

use shapes::CFields;

// The answer, and the fields after it.
#[derive(Clone, Copy, Debug, PartialEq, Eq)]
pub struct CContents {
    pub answer: u8,
    pub fields: CFields,
}

pub fn fields(fields: CFields, r: &[u8]) -> CContents
    ensures { FieldsGiven fields r.now result }
{
    match record::fields(r) {
        Ok(f) => CContents {
            answer: 0,
            fields: CFields::from(f),
        },
        Err(refusal) => CContents {
            answer: refusal.number(),
            fields,
        },
    }
}
