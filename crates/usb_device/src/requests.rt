//! The numbers of requests.

// A request's bmRequestType: where its data go, and whom it asks (USB 2.0 §9.3.1).
pub const TO_DEVICE: u8 = 0x00;

pub const TO_INTERFACE: u8 = 0x01;

pub const TO_ENDPOINT: u8 = 0x02;

pub const TO_CLASS: u8 = 0x21;

pub const FROM_DEVICE: u8 = 0x80;

pub const FROM_INTERFACE: u8 = 0x81;

pub const FROM_ENDPOINT: u8 = 0x82;

pub const FROM_CLASS: u8 = 0xA1;

// Standard requests (USB 2.0 table 9-4).
pub const GET_STATUS: u8 = 0;

pub const CLEAR_FEATURE: u8 = 1;

pub const SET_FEATURE: u8 = 3;

pub const SET_ADDRESS: u8 = 5;

pub const GET_DESCRIPTOR: u8 = 6;

pub const GET_CONFIGURATION: u8 = 8;

pub const SET_CONFIGURATION: u8 = 9;

pub const GET_INTERFACE: u8 = 10;

pub const SET_INTERFACE: u8 = 11;

// The feature of an endpoint (USB 2.0 table 9-6).
pub const ENDPOINT_HALT: u16 = 0;

// The requests of keyboards (HID 1.11 §7.2).
pub const SET_REPORT: u8 = 0x09;

pub const SET_IDLE: u8 = 0x0A;

pub const SET_PROTOCOL: u8 = 0x0B;

// The requests of modems (CDC PSTN 1.2 §6.3).
pub const SET_LINE_CODING: u8 = 0x20;

pub const GET_LINE_CODING: u8 = 0x21;

pub const SET_CONTROL_LINE_STATE: u8 = 0x22;

pub const SEND_BREAK: u8 = 0x23;

// The requests of printers (printers 1.1 §4.2).
pub const GET_DEVICE_ID: u8 = 0;

pub const GET_PORT_STATUS: u8 = 1;

pub const SOFT_RESET: u8 = 2;

// Types of descriptors, with index 0 (USB 2.0 table 9-5).
pub const DEVICE: u16 = 0x0100;

pub const CONFIGURATION: u16 = 0x0200;
