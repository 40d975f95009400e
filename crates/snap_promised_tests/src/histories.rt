//! Views and histories that are made from entries and events, and the texts that are written for them.
use snap_core::{Counted, Event, EventRefusal, History, View, ViewRefusal};
use snap_csv::{fields_of, write_history, write_history_stamped};
use snap_testing::worked::VIEW_BESIDE_UPDATE;
use snap_testing::{entry, history_of};
use std::test::Fail;

#[test]
fn entries_that_do_not_rise_are_refused_before_a_number_0(rt: HostRuntime) -> Result<(), Fail> {
    let view = View::from_entries(Vec::new(rt.alloc()))?;
    assert!(rt; view.entries().is_empty());
    let falling = [entry(1, 1, 1), entry(0, 0, 1)].to_vec(rt.alloc())?;
    assert_eq!(rt;
        View::from_entries(falling).err(),
        Some(ViewRefusal::NotRising)
    );
    let unnumbered = [entry(0, 0, 1)].to_vec(rt.alloc())?;
    assert_eq!(rt;
        View::from_entries(unnumbered).err(),
        Some(ViewRefusal::ZeroNumber)
    );
    Ok(())
}

#[test]
fn a_refused_event_comes_back_and_the_history_is_as_before(rt: HostRuntime) -> Result<(), Fail> {
    let mut history = History::new(rt.alloc());
    history.push(Event::BeginView { process: 0 })?;
    match history.push(Event::BeginView { process: 0 }) {
        Err((Event::BeginView { process: 0 }, EventRefusal::Busy)) => {}
        other => return Err(Fail::from(other)),
    }
    assert_eq!(rt; history.len(), 1);
    Ok(())
}

#[test]
fn a_history_is_written_as_a_header_and_a_line_for_each_event(rt: HostRuntime) -> Result<(), Fail> {
    let history = history_of(rt.alloc(), VIEW_BESIDE_UPDATE)?;
    let mut writer = Counted::new(Vec::new(rt.alloc()));
    assert_eq!(rt; write_history(rt.alloc(), &mut writer, &history), Ok(()));
    let text =
        "event,process,op,data\nbegin,0,update,0:1:3\nbegin,1,view,\nend,1,view,\nend,0,update,\n";
    assert_eq!(rt; str::from_utf8(&writer.into_inner())?, text);
    Ok(())
}

#[test]
fn a_history_is_written_with_a_stamp_for_each_event(rt: HostRuntime) -> Result<(), Fail> {
    let history = history_of(rt.alloc(), VIEW_BESIDE_UPDATE)?;
    assert!(rt; history.len() == 4);
    let mut writer = Counted::new(Vec::new(rt.alloc()));
    let answer = write_history_stamped(rt.alloc(), &mut writer, &history, &[2, 3, 5, 8]);
    assert_eq!(rt; answer, Ok(()));
    let text =
        "at,event,process,op,data\n2,begin,0,update,0:1:3\n3,begin,1,view,\n5,end,1,view,\n8,end,0,update,\n";
    assert_eq!(rt; str::from_utf8(&writer.into_inner())?, text);
    Ok(())
}

#[test]
fn the_begin_of_an_update_has_its_entry_as_data(rt: HostRuntime) -> Result<(), Fail> {
    let begin = Event::BeginUpdate {
        process: 0,
        entry: entry(0, 1, 3),
    };
    let fields = fields_of(rt.alloc(), &begin)?;
    let known: &[&str] = &["begin", "0", "update", "0:1:3"];
    for (field, known) in fields.iter().zip(known) {
        assert_eq!(rt; field.as_slice(), known.as_bytes());
    }
    Ok(())
}
