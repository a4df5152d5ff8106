// The table of known results.
ghost use Rattle.known.specs.Known.{Known};

// The definitions that long lists of bytes are computed by.
#[tactic(auto, unfolding(reading::specs::Reading::judged, reading::specs::Reading::read, reading::specs::Reading::reading, oxts_fields::specs::Table::field_table, oxts_judge::specs::Bodies::inertial_body, oxts_judge::specs::Bodies::solution_body, oxts_judge::specs::Bodies::status_body, oxts_judge::specs::Bodies::passed_body))]
pub fn known_results()
    ensures known { Known }
{}
