//! The numbers of properties (clause 21, BACnetPropertyIdentifier).

pub(crate) use bac_apdu::property_id::LOG_BUFFER;

pub(crate) const APDU_TIMEOUT: u32 = 11;

pub(crate) const APPLICATION_SOFTWARE_VERSION: u32 = 12;

pub(crate) const DEVICE_ADDRESS_BINDING: u32 = 30;

pub(crate) const EVENT_STATE: u32 = 36;

pub(crate) const FIRMWARE_REVISION: u32 = 44;

pub(crate) const LOCAL_DATE: u32 = 56;

pub(crate) const LOCAL_TIME: u32 = 57;

pub(crate) const MAX_APDU_LENGTH_ACCEPTED: u32 = 62;

pub(crate) const MODEL_NAME: u32 = 70;

pub(crate) const NUMBER_OF_APDU_RETRIES: u32 = 73;

pub(crate) const NUMBER_OF_STATES: u32 = 74;

pub(crate) const OBJECT_IDENTIFIER: u32 = 75;

pub(crate) const OBJECT_LIST: u32 = 76;

pub(crate) const OBJECT_NAME: u32 = 77;

pub(crate) const OBJECT_TYPE: u32 = 79;

pub(crate) const OUT_OF_SERVICE: u32 = 81;

pub(crate) const PRESENT_VALUE: u32 = 85;

pub(crate) const PRIORITY_ARRAY: u32 = 87;

pub(crate) const PROTOCOL_OBJECT_TYPES_SUPPORTED: u32 = 96;

pub(crate) const PROTOCOL_SERVICES_SUPPORTED: u32 = 97;

pub(crate) const PROTOCOL_VERSION: u32 = 98;

pub(crate) const RELINQUISH_DEFAULT: u32 = 104;

pub(crate) const SEGMENTATION_SUPPORTED: u32 = 107;

pub(crate) const STATUS_FLAGS: u32 = 111;

pub(crate) const SYSTEM_STATUS: u32 = 112;

pub(crate) const UNITS: u32 = 117;

pub(crate) const VENDOR_IDENTIFIER: u32 = 120;

pub(crate) const VENDOR_NAME: u32 = 121;

pub(crate) const BUFFER_SIZE: u32 = 126;

pub(crate) const LOG_DEVICE_OBJECT_PROPERTY: u32 = 132;

pub(crate) const ENABLE: u32 = 133;

pub(crate) const LOG_INTERVAL: u32 = 134;

pub(crate) const PROTOCOL_REVISION: u32 = 139;

pub(crate) const RECORD_COUNT: u32 = 141;

pub(crate) const STOP_WHEN_FULL: u32 = 144;

pub(crate) const TOTAL_RECORD_COUNT: u32 = 145;

pub(crate) const DATABASE_REVISION: u32 = 155;

pub(crate) const LOGGING_TYPE: u32 = 197;
