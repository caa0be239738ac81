// What the data sectors of a volume show after each call, whatever the cipher and the store.
#![tactic(auto)]

ghost use Rattle.showing.specs.Showing.{OfEveryVolume, CallsKeepWhatIsShown, CallsShowWhatIsPut, IsACard};

// No call but a write, a format and a load of other keys changes what is shown; a key that changes does not.
pub fn calls_keep_what_is_shown()
    ensures { OfEveryVolume CallsKeepWhatIsShown }
{}

pub fn calls_show_what_is_put()
    ensures { OfEveryVolume CallsShowWhatIsPut }
{}

pub fn volume_is_a_card()
    ensures { OfEveryVolume IsACard }
{}
