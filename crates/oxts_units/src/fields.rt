// The fields of status channels by name and unit, in the order of channels and fields. A field that only one format has is here too.
// They stand apart from the table of layouts since the gateway's libraries hold no text; a test holds both tables against each other.
use crate::measure::{MILLISECONDS, Scale, Unit};

// Channel, field, name and unit. They go by place: a row is a line, which names would spread over six.
#[derive(Clone, Copy)]
pub struct FieldText(pub u8, pub u8, pub &'static str, pub Unit);

// A number without a unit.
const COUNT: Unit = Unit("-", Scale::Steps(1, 0));

const CODE: Unit = Unit("code", Scale::Steps(1, 0));

const TEXT: Unit = Unit("ascii", Scale::Steps(1, 0));

const MINUTES: Unit = Unit("min", Scale::Steps(1, 0));

const SECONDS: Unit = Unit("s", Scale::Steps(1, 0));

const TENTH_SECONDS: Unit = Unit("s", Scale::Steps(1, 1));

const HUNDREDTH_SECONDS: Unit = Unit("s", Scale::Steps(1, 2));

const ANGLE: Unit = Unit("rad", Scale::Steps(1, 4));

const MILLIMETRES: Unit = Unit("m", Scale::Steps(1, 3));

const FIVE_MILLIMETRES: Unit = Unit("m", Scale::Steps(5, 3));

const TENTH_MILLIMETRES: Unit = Unit("m", Scale::Steps(1, 4));

const KIBIBYTES: Unit = Unit("B", Scale::Steps(1024, 0));

const PULSES: Unit = Unit("1/m", Scale::Steps(1, 1));

// Steps of 0.002 %.
const PROPORTION: Unit = Unit("-", Scale::Steps(2, 5));

const TENTHS: Unit = Unit("-", Scale::Steps(1, 1));

static FIELDS: [FieldText; 77] = [
    FieldText(0, 0, "gps_minutes", MINUTES),
    FieldText(0, 1, "satellites", COUNT),
    FieldText(0, 2, "position_mode", CODE),
    FieldText(0, 3, "velocity_mode", CODE),
    FieldText(0, 4, "orientation_mode", CODE),
    FieldText(13, 0, "antenna_heading", ANGLE),
    FieldText(13, 1, "antenna_pitch", ANGLE),
    FieldText(13, 2, "antenna_distance", MILLIMETRES),
    FieldText(13, 3, "antenna_age", COUNT),
    FieldText(13, 4, "heading_gps_available", COUNT),
    FieldText(13, 5, "heading_gps_used", COUNT),
    FieldText(14, 0, "primary_antenna_accuracy_x", TENTH_MILLIMETRES),
    FieldText(14, 1, "primary_antenna_accuracy_y", TENTH_MILLIMETRES),
    FieldText(14, 2, "primary_antenna_accuracy_z", TENTH_MILLIMETRES),
    FieldText(14, 3, "primary_antenna_age", COUNT),
    FieldText(14, 4, "position_gps_used", COUNT),
    FieldText(14, 5, "position_glonass_used", COUNT),
    FieldText(15, 0, "antenna_heading_accuracy", ANGLE),
    FieldText(15, 1, "antenna_pitch_accuracy", ANGLE),
    FieldText(15, 2, "antenna_distance_accuracy", MILLIMETRES),
    FieldText(15, 3, "antenna_accuracy_age", COUNT),
    FieldText(15, 4, "heading_glonass_available", COUNT),
    FieldText(15, 5, "heading_glonass_used", COUNT),
    FieldText(16, 0, "vehicle_heading", ANGLE),
    FieldText(16, 1, "vehicle_pitch", ANGLE),
    FieldText(16, 2, "vehicle_roll", ANGLE),
    FieldText(16, 3, "vehicle_validity", CODE),
    FieldText(16, 4, "utc_offset", SECONDS),
    FieldText(17, 0, "secondary_characters", COUNT),
    FieldText(17, 1, "secondary_packets", COUNT),
    FieldText(17, 2, "secondary_characters_not_understood", COUNT),
    FieldText(17, 3, "secondary_packets_not_used", COUNT),
    FieldText(18, 0, "sensor_characters", COUNT),
    FieldText(18, 1, "sensor_packets", COUNT),
    FieldText(18, 2, "sensor_characters_not_understood", COUNT),
    FieldText(19, 0, "software_version_0", TEXT),
    FieldText(19, 1, "software_version_1", TEXT),
    FieldText(19, 2, "software_version_2", TEXT),
    FieldText(19, 3, "software_version_3", TEXT),
    FieldText(19, 4, "software_version_4", TEXT),
    FieldText(19, 5, "software_version_5", TEXT),
    FieldText(19, 6, "software_version_6", TEXT),
    FieldText(19, 7, "software_version_7", TEXT),
    FieldText(20, 0, "correction_age", HUNDREDTH_SECONDS),
    FieldText(20, 1, "base_station_0", TEXT),
    FieldText(20, 2, "base_station_1", TEXT),
    FieldText(20, 3, "base_station_2", TEXT),
    FieldText(20, 4, "base_station_3", TEXT),
    FieldText(21, 0, "disk_space_left", KIBIBYTES),
    FieldText(21, 1, "log_file_size", KIBIBYTES),
    FieldText(40, 0, "encoder_version", COUNT),
    FieldText(41, 0, "serial_port_1", CODE),
    FieldText(41, 1, "serial_port_2", CODE),
    FieldText(41, 2, "serial_port_3", CODE),
    FieldText(41, 3, "can_bus", CODE),
    FieldText(41, 4, "ip_address_0", COUNT),
    FieldText(41, 5, "ip_address_1", COUNT),
    FieldText(41, 6, "ip_address_2", COUNT),
    FieldText(41, 7, "ip_address_3", COUNT),
    FieldText(44, 0, "wheel_speed_scale", PULSES),
    FieldText(44, 1, "wheel_speed_scale_accuracy", PROPORTION),
    FieldText(45, 0, "wheel_pulses", COUNT),
    FieldText(45, 1, "wheel_pulse_time", MILLISECONDS),
    FieldText(45, 2, "wheel_pulse_age", TENTH_SECONDS),
    FieldText(46, 0, "wheel_distance_x", MILLIMETRES),
    FieldText(46, 1, "wheel_distance_y", MILLIMETRES),
    FieldText(46, 2, "wheel_distance_z", MILLIMETRES),
    FieldText(46, 3, "wheel_distance_validity", CODE),
    FieldText(47, 0, "wheel_distance_accuracy_x", TENTH_MILLIMETRES),
    FieldText(47, 1, "wheel_distance_accuracy_y", TENTH_MILLIMETRES),
    FieldText(47, 2, "wheel_distance_accuracy_z", TENTH_MILLIMETRES),
    FieldText(47, 3, "wheel_distance_accuracy_validity", CODE),
    FieldText(48, 0, "undulation", FIVE_MILLIMETRES),
    FieldText(48, 1, "horizontal_dilution", TENTHS),
    FieldText(48, 2, "position_dilution", TENTHS),
    FieldText(48, 3, "ellipsoid", CODE),
    FieldText(48, 4, "earth_frame", CODE),
];

// The table of all fields.
pub fn field_texts() -> &'static [FieldText] {
    &FIELDS
}
