//! The mistakes in a field data, against sentences written by hand.
use snap_core::Limit;
use snap_csv::{ReadRefusal, read_text};
use snap_explain::explain_refusal;
use snap_text::TextFault;
use std::alloc::Global;
use std::test::Fail;

// Records with a fault in the field data, and what is said of each.
const MISTAKES: &[(&str, &str)] = &[
    (
        "begin,1,view,0:1:5",
        "the begin of a view has an empty field data, and this one is not empty",
    ),
    (
        "end,1,update,0:1:5",
        "the end of an update has an empty field data, and this one is not empty",
    ),
    (
        "begin,1,update,",
        "the begin of an update has one entry in the field data, and this one has none",
    ),
    (
        "begin,1,update,0:1:5 1:1:6 2:1:7",
        "the begin of an update has one entry in the field data, and this one has 3",
    ),
    (
        "end,1,view, 0:1:5",
        "entry 1 is empty: one space stands between two entries, and none before the first or after the last",
    ),
    (
        "end,1,view,0:1:5  1:1:6",
        "entry 2 is empty: one space stands between two entries, and none before the first or after the last",
    ),
    (
        "begin,1,update,0:1:5 ",
        "entry 2 is empty: one space stands between two entries, and none before the first or after the last",
    ),
    (
        "begin,1,update,5",
        "entry 1 has not the 3 parts of COMPONENT:NUMBER:VALUE, but 1",
    ),
    (
        "begin,1,update,1:5",
        "entry 1 has not the 3 parts of COMPONENT:NUMBER:VALUE, but 2",
    ),
    (
        "end,1,view,0:1:5 1:1:6:",
        "entry 2 has not the 3 parts of COMPONENT:NUMBER:VALUE, but 4",
    ),
    (
        "begin,1,update,256:1:5",
        "the component of entry 1 is not a number from 0 to 255 without a sign or leading zeros",
    ),
    (
        "end,1,view,0:1:5 +1:0:x",
        "the component of entry 2 is not a number from 0 to 255 without a sign or leading zeros",
    ),
    (
        "begin,1,update,:1:5",
        "the component of entry 1 is not a number from 0 to 255 without a sign or leading zeros",
    ),
    (
        "begin,1,update,0:0:5",
        "the number of entry 1 is not a number from 1 to 4294967295 without a sign or leading zeros",
    ),
    (
        "begin,1,update,255:4294967296:5",
        "the number of entry 1 is not a number from 1 to 4294967295 without a sign or leading zeros",
    ),
    (
        "end,1,view,0:1:5 1:1:6 2:01:x",
        "the number of entry 3 is not a number from 1 to 4294967295 without a sign or leading zeros",
    ),
    (
        "begin,1,update,0:4294967295:4294967296",
        "the value of entry 1 is not a number from 0 to 4294967295 without a sign or leading zeros",
    ),
    (
        "end,1,view,0:1:99999999999999999999999",
        "the value of entry 1 is not a number from 0 to 4294967295 without a sign or leading zeros",
    ),
    (
        "begin,1,update,0:1:x 1:1:6",
        "the value of entry 1 is not a number from 0 to 4294967295 without a sign or leading zeros",
    ),
    (
        "end,1,view,0:1:5 2:1:6 2:1:6",
        "the component of entry 2 is not below that of the next entry",
    ),
    (
        "end,1,view,255:1:5 0:1:6",
        "the component of entry 1 is not below that of the next entry",
    ),
    (
        "end,1,view,1:1:5 0:1:6 0:0:7",
        "the number of entry 3 is not a number from 1 to 4294967295 without a sign or leading zeros",
    ),
];

const RULE: &str = "the begin of an update has one entry in the field data\n\
    the end of a view has entries with rising components and one space between two, or none\n\
    any other record has an empty field data\n\
    an entry is COMPONENT:NUMBER:VALUE, from 0:1:0 to 255:4294967295:4294967295, without signs or leading zeros\n";

// Whether a text is refused at record 2 for its field data, and explained by a sentence before the rule.
fn is_explained(alloc: Global, text: &str, sentence: &str) -> Result<bool, Fail> {
    let limit = Limit::usual();
    let Err(
        ReadRefusal::Text {
            place: 2,
            fault: TextFault::BadData,
        },
    ) = read_text(alloc, text.as_bytes(), limit)
    else {
        return Ok(false);
    };
    let said = explain_refusal(alloc, text.as_bytes(), 2, TextFault::BadData, limit)?;
    let known = format!(in alloc;
        "refused record 2: data\n{sentence}\n{RULE}  record 2 has the fields "
    )?;
    Ok(said.starts_with(known.as_bytes()))
}

#[test]
fn each_mistake_in_a_field_has_its_sentence(rt: HostRuntime) -> Result<(), Fail> {
    for (record, sentence) in MISTAKES {
        let text = format!(in rt.alloc(); "event,process,op,data\n{record}\n")?;
        assert!(rt; is_explained(rt.alloc(), &text, *sentence)?, "{record}");
    }
    Ok(())
}

#[test]
fn each_mistake_has_the_same_sentence_with_stamps(rt: HostRuntime) -> Result<(), Fail> {
    for (record, sentence) in MISTAKES {
        let text = format!(in rt.alloc(); "at,event,process,op,data\n7,{record}\n")?;
        assert!(rt; is_explained(rt.alloc(), &text, *sentence)?, "{record}");
    }
    Ok(())
}
