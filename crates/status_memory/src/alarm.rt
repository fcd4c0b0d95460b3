ghost use Rattle.std.specs.Prelude.{◌≡◌};
ghost use Rattle.status_memory.specs.Alarm.{alarm_name};

/// An alarm about a gateway: what is shown of it may be wrong, or soon will be.
#[derive(Clone, Copy)]
pub enum Alarm {
    /// It shows no page.
    NoPage,
    /// A later fetch gave no page, or none has ended for 60 seconds; the last page is this many
    /// seconds old.
    NoNewPage(u32),
    /// The moment of its page is more than 60 seconds before the clock; the page is this many seconds
    /// old.
    StandsStill(u32),
    /// The moment of its page is this many seconds after the clock, more than 60.
    ClockAhead(u32),
    /// It is closing.
    Closing,
    /// Its page shows this many objects, and another has shown more: the most.
    FewerObjects(usize, usize),
    /// One of its pages of the last hour shows less than half of its objects' names on the page before.
    OtherObjects,
}

/// The name of an alarm, for programs. Own words.
pub fn alarm_name(alarm: Alarm) -> &'static str
    ensures { result.now ≡ alarm_name alarm }
{
    match alarm {
        Alarm::NoPage => "no page",
        Alarm::NoNewPage(_) => "no new page",
        Alarm::StandsStill(_) => "stands still",
        Alarm::ClockAhead(_) => "clock ahead",
        Alarm::Closing => "closing",
        Alarm::FewerObjects(_, _) => "fewer objects",
        Alarm::OtherObjects => "other objects",
    }
}
