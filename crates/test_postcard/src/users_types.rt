//! Tests of the types of `example_types`, with bytes worked out by hand.

use crate::asserts::{assert_owned, assert_read, read, same};
use arrayvec::{ArrayString, ArrayVec};
use example_types::chain::Chain;
use example_types::event::Event;
use example_types::interval::Interval;
use example_types::numbers::Numbers;
use example_types::pair::Pair;
use example_types::percent::Percent;
use example_types::reading::Reading;
use example_types::sample::{Sample, Survey};
use example_types::station::{Position, Station};
use example_types::store::{
    Mode, SETTINGS_FRAME_SIZE, SETTINGS_SIZE, Settings, Store, fill_frame, settings_size,
};
use example_types::tally::Tally;
use example_types::theorems::{
    reading_comes_back, sample_comes_back, sample_fits_28_bytes, station_comes_back,
    survey_comes_back, u32_fits_five_bytes,
};
use postcard::ser_flavors::Size;
use postcard::{Error, Owned, serialize_with_flavor};
use std::alloc::{AllocError, AllocGlobal, Global};
use std::process::Abort;

/// The encoding of [`reading`].
const READING: [u8; 10] = [0xAC, 0x02, 0x03, 2, b'a', b'b', 2, 1, 0x80, 0x01];

fn reading(rt: &(impl Abort + AllocGlobal)) -> Reading<'static> {
    match [1, 128].to_vec(rt.alloc()) {
        Ok(samples) => Reading {
            id: 300,
            temperature: -2,
            label: "ab",
            samples,
        },
        Err(e) => panic!(rt; "{e}"),
    }
}

fn numbers() -> Numbers {
    Numbers {
        byte: 200,
        signed_byte: -1,
        short: 128,
        signed_short: -1,
        word: 127,
        signed_word: 1,
        long: 16384,
        signed_long: -64,
    }
}

#[test]
fn structs(rt: HostRuntime) {
    assert_read(&rt, &READING, Ok(reading(&rt)));
    let bytes = [200, 0xFF, 0x80, 0x01, 1, 127, 2, 0x80, 0x80, 0x01, 127];
    assert_owned(&rt, &bytes, Ok(numbers()));
    let pair = Pair {
        left: 1u8,
        right: 2u8,
    };
    assert_owned(&rt, &[1, 2], Ok(pair));
}

/// The encoding of [`station`].
const STATION: [u8; 6] = [1, b'x', 2, 1, 1, 6];

/// Returns a string in memory.
fn text(rt: &(impl Abort + AllocGlobal), text: &str) -> String {
    match String::from_str(rt.alloc(), text) {
        Ok(text) => text,
        Err(e) => panic!(rt; "{e}"),
    }
}

fn station(rt: &(impl Abort + AllocGlobal)) -> Station {
    Station {
        name: text(rt, "x"),
        position: Position {
            latitude: 1,
            longitude: -1,
        },
        height: Some(3),
    }
}

#[test]
fn a_struct_within_a_struct(rt: HostRuntime) {
    assert_owned(&rt, &STATION, Ok(station(&rt)));
}

#[test]
fn enums(rt: HostRuntime) {
    assert_read(&rt, &[0], Ok(Event::Boot));
    let bytes = [1, 0xAC, 0x02, 0x03, 2, b'a', b'b', 2, 1, 0x80, 0x01];
    assert_read(&rt, &bytes, Ok(Event::Reading(reading(&rt))));
    let fault = Event::Fault {
        code: 7,
        text: text(&rt, "hot"),
    };
    assert_read(&rt, &[2, 7, 3, b'h', b'o', b't'], Ok(fault));
    assert_read::<Event>(&rt, &[3], Err(Error::SerdeDeCustom));
}

#[test]
fn percents_and_intervals(rt: HostRuntime) {
    for value in [0, 100] {
        match Percent::new(value) {
            Some(percent) => assert_owned(&rt, &[value], Ok(percent)),
            None => panic!(rt; "{value} is a percent"),
        }
    }
    assert_owned::<Percent>(&rt, &[101], Err(Error::SerdeDeCustom));
    let interval = Interval { start: 1, end: 300 };
    same(
        &rt,
        serialize_with_flavor(&interval, Size::default()),
        Ok(3),
    );
    let reversed = Interval { start: 2, end: 1 };
    let refused = serialize_with_flavor(&reversed, Size::default());
    same(&rt, refused, Err(Error::SerdeSerCustom));
}

#[test]
fn what_is_written_comes_back(rt: HostRuntime) {
    let mut message = Vec::new(rt.alloc());
    let back = reading_comes_back(rt.alloc(), &reading(&rt), &mut message);
    same(&rt, back, Ok(reading(&rt)));
    let back = station_comes_back(rt.alloc(), &station(&rt));
    same(&rt, back, Ok(station(&rt)));
    let mut buffer = [0; 5];
    same(&rt, u32_fits_five_bytes(u32::MAX, &mut buffer), Ok(5));
    same(&rt, buffer, [0xFF, 0xFF, 0xFF, 0xFF, 0x0F]);
}

/// Returns settings with this name, which has at most 16 bytes.
fn settings(rt: &impl Abort, name: &str, color: Option<u16>, mode: Mode) -> Settings {
    match ArrayString::from(name) {
        Ok(name) => Settings { name, color, mode },
        Err(_) => panic!(rt; "{name} is too long"),
    }
}

#[test]
fn settings_in_a_buffer_of_the_greatest_size(rt: HostRuntime) {
    let timer = Mode::Timer { from: 7, to: 22 };
    assert_read(&rt, &[0, 0, 2, 7, 22], Ok(settings(&rt, "", None, timer)));
    let mut store = Store::new();
    same(&rt, settings_size(), Some(SETTINGS_SIZE));
    let off = settings(&rt, "", None, Mode::Off);
    same(&rt, store.load(rt.alloc()), Ok(off));
    let on = settings(&rt, "kitchen (window)", Some(u16::MAX), Mode::On(u16::MAX));
    same(&rt, store.save(&on), Ok(25));
    let mut frame = [0xFF; SETTINGS_FRAME_SIZE];
    same(&rt, fill_frame(&on, &mut frame), Ok(27));
    same(&rt, (frame[0], frame[1], frame[26]), (26, 16, 0));
    same(&rt, store.load(rt.alloc()), Ok(on));
}

fn try_chain(alloc: Global, numbers: &[u16]) -> Result<Chain, AllocError> {
    let mut chain = Chain::End;
    for number in numbers.iter().rev() {
        chain = Chain::Link(*number, Box::new(alloc, chain)?);
    }
    Ok(chain)
}

/// Returns the chain of these numbers.
fn chain(rt: &(impl Abort + AllocGlobal), numbers: &[u16]) -> Chain {
    match try_chain(rt.alloc(), numbers) {
        Ok(chain) => chain,
        Err(e) => panic!(rt; "{e}"),
    }
}

/// Returns the encoding of a chain of 32 zeros.
fn zeros() -> [u8; 65] {
    let mut zeros = [0; 65];
    for link in 0..32usize {
        zeros[2 * link] = 1;
    }
    zeros
}

#[test]
fn a_chain_to_a_depth(rt: HostRuntime) {
    assert_owned(&rt, &[1, 1, 1, 0xAC, 0x02, 0], Ok(chain(&rt, &[1, 300])));
    let zeros = zeros();
    assert_owned(&rt, &zeros[2..], Ok(chain(&rt, &[0; 31])));
    let longer = serialize_with_flavor(&chain(&rt, &[0; 32]), Size::default());
    same(&rt, longer, Err(Error::SerdeSerCustom));
    assert_owned::<Chain>(&rt, &zeros, Err(Error::SerdeDeCustom));
    assert_owned::<Chain>(&rt, &[2], Err(Error::SerdeDeCustom));
    assert_owned::<Chain>(
        &rt,
        &[1, 0x80, 0x80, 0x04, 0],
        Err(Error::DeserializeBadVarint),
    );
    assert_owned::<Chain>(&rt, &[1, 7, 1, 8], Err(Error::DeserializeUnexpectedEnd));
}

/// Returns a row of `count` strokes, at most 5.
fn strokes(count: usize) -> ArrayVec<(), 5> {
    let mut row = ArrayVec::new();
    for _ in 0..count {
        let _ = row.try_push(());
    }
    row
}

#[test]
fn strokes_up_to_the_capacity(rt: HostRuntime) {
    let mut tally = Tally {
        rows: ArrayVec::new(),
    };
    for count in [5, 0, 2] {
        same(&rt, tally.rows.try_push(strokes(count)).is_ok(), true);
    }
    assert_owned(&rt, &[3, 5, 0, 2], Ok(tally));
    let greatest = [0xFF, 0xFF, 0xFF, 0xFF, 0xFF, 0xFF, 0xFF, 0xFF, 0xFF, 0x01];
    let mut row = [2; 12];
    row[2..].copy_from_slice(&greatest);
    let mut rows = [5; 20];
    rows[..10].copy_from_slice(&greatest);
    assert_owned::<Tally>(&rt, &[1, 6], Err(Error::SerdeDeCustom));
    assert_owned::<Tally>(&rt, &row, Err(Error::SerdeDeCustom));
    assert_owned::<Tally>(&rt, &rows, Err(Error::SerdeDeCustom));
}

/// A sample: 21.5 is 1.34375 * 2^4, and 101325 is 1.546... * 2^16.
const SAMPLE: Sample = Sample {
    sensor: 300,
    temperature: 21.5,
    pressure: Some(101325.0),
    wind: [0.5, -1.0, 2.25],
};

/// The bytes of the sample, a line for each field.
const SAMPLE_BYTES: [u8; 27] = [
    0xAC, 0x02, //
    0x00, 0x00, 0xAC, 0x41, //
    0x01, 0x00, 0x00, 0x00, 0x00, 0xD0, 0xBC, 0xF8, 0x40, //
    0x00, 0x00, 0x00, 0x3F, 0x00, 0x00, 0x80, 0xBF, 0x00, 0x00, 0x10, 0x40,
];

#[test]
fn numbers_with_a_point(rt: HostRuntime) {
    assert_owned(&rt, &SAMPLE_BYTES, Ok(SAMPLE));
    let back = sample_comes_back(rt.alloc(), &SAMPLE);
    same(&rt, back, Ok(SAMPLE));
    let mut buffer = [0; 28];
    let widest = Sample {
        sensor: u16::MAX,
        ..SAMPLE
    };
    same(&rt, sample_fits_28_bytes(&widest, &mut buffer), Ok(28));
}

#[test]
fn a_list_and_a_set(rt: HostRuntime) {
    let bytes = [
        0x01, 0x00, 0x00, 0x18, 0x41, // 9.5
        0x01, 0x00, 0x00, 0x00, 0x00, 0x00, 0x00, 0xE0, 0x3F, // 0.5
        0x02, 0x01, 0xAC, 0x02,
    ];
    let Owned(survey) = read::<Owned<Survey>>(&rt, &bytes);
    same(&rt, survey.greatest, Some(9.5));
    same(&rt, survey.hours.as_slice(), [0.5].as_slice());
    let sensors = &survey.sensors;
    same(&rt, sensors.contains(&1) && sensors.contains(&300), true);
    let back = survey_comes_back(rt.alloc(), &survey);
    same(&rt, back, Ok(survey));
}
