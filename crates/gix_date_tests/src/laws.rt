//! Laws, called where what they require is known, for nothing but what they state.
use crate::fakes::answers::check;
use gix_date::{RawOffsets, Time, laws};

#[test]
fn laws_are_called_for_nothing_but_what_they_state() {
    laws::written_is_read(Time::new(0, 60));
    laws::alike(Time::new(0, -30), Time::new(0, -1));
}

#[test]
fn laws_are_called_for_what_they_state_of_a_time() {
    let time = Time::new(1_660_874_655, 28_800);
    laws::read_back(time);
    laws::read_back_wide(time);
    gix_date_laws::short_read_back(time, RawOffsets::Quarter);
    gix_date_laws::earlier(time, &[(1, 86_400)]);
}

#[test]
#[tactic(auto, using(gix_date::proofs::Relative::FixedTimes::moment_fixed))]
fn laws_are_called_for_what_they_state_of_a_moment(rt: HostRuntime) {
    let moment = Time::new(1_660_874_655, 28_800)
        .to_zoned()
        .expect(&rt, "a moment");
    laws::yesterday(&moment);
    // A pair of each period, and of none of it.
    laws::seconds_permute(
        &moment,
        &[(0, 1), (1, 60), (2, 3600), (3, 86_400), (4, 604_800)],
    );
    let day = moment.day();
    check(&rt, day == 19);
    if day <= 28 {
        laws::months_add(&moment, &[(0, 1), (1, 12), (2, 1)]);
    }
    let parsed = laws::headline(rt.alloc(), "5 -0130", Some(moment));
    check(&rt, parsed.ok() == Some(Time::new(5, -5400)));
    let wide = laws::headline_with(rt.alloc(), "5 +0007", None, RawOffsets::WholeMinutes);
    check(&rt, wide.ok() == Some(Time::new(5, 420)));
}
