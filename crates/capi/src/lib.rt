// The device's calls for C, declared in include/serkoviu.h. Each export makes the device's call of the same name;
// orders, answers and readings cross as numbers, since an enum does not cross to C. A block's part of an image has no
// export, since a returned reference does not cross either.
#![tactic(auto)]

ghost use Rattle.std.specs.Prelude.{◌≡◌};
ghost use Rattle.wire.specs.Refusal.{answer_number};
ghost use Rattle.wire.specs.Image.{image_answer, image_bytes};
ghost use Rattle.device.specs.Factory.{factory_device};
ghost use Rattle.device.specs.Read.{read_of};
ghost use Rattle.device.specs.Calls.{write_of, tick_of, telegram_of, load_of, warm_started};
ghost use Rattle.packing.specs.Packed.{packed_of, pack_answer, pack_bytes, unpacked_of};
ghost use Rattle.capi.specs.Numbers.{version, order_numbers, discrete_order_numbers, orders_numbers, reading_numbers, unpacked_number, unpacked_into};

use blocks::setpoint::Order;
use device::{Device, Fed, Orders};
use parameters::Words;
use wire::{Discrete, Pair, Refusal, answer_number};

// A drive order: kind 0 Position, 1 Safe, 2 Rest; the value is 0 where the kind is not 0.
#[repr(C)]
#[derive(Clone, Copy)]
pub struct OrderNumbers {
    pub kind: u8,
    pub value: f32,
}

// The same of DO, whose value is discrete. A type of its own, not one over the value's: C knows no generic.
#[repr(C)]
#[derive(Clone, Copy)]
pub struct DiscreteOrderNumbers {
    pub kind: u8,
    pub value: u8,
}

// The drive orders of a tick.
#[repr(C)]
#[derive(Clone, Copy)]
pub struct OrdersNumbers {
    pub ao: OrderNumbers,
    pub dout: DiscreteOrderNumbers,
}

// A read's number and words; both words are 0 where it is refused.
#[repr(C)]
#[derive(Clone, Copy)]
pub struct ReadingNumbers {
    pub answer: u8,
    pub first: u32,
    pub second: u32,
}

impl From<Order<f32>> for OrderNumbers {
    fn from(order: Order<f32>) -> OrderNumbers
        ensures { result ≡ order_numbers order }
    {
        match order {
            Order::Position(x) => OrderNumbers { kind: 0, value: x },
            Order::Safe => OrderNumbers {
                kind: 1,
                value: 0.0,
            },
            Order::Rest => OrderNumbers {
                kind: 2,
                value: 0.0,
            },
        }
    }
}

impl From<Order<u8>> for DiscreteOrderNumbers {
    fn from(order: Order<u8>) -> DiscreteOrderNumbers
        ensures { result ≡ discrete_order_numbers order }
    {
        match order {
            Order::Position(x) => DiscreteOrderNumbers { kind: 0, value: x },
            Order::Safe => DiscreteOrderNumbers { kind: 1, value: 0 },
            Order::Rest => DiscreteOrderNumbers { kind: 2, value: 0 },
        }
    }
}

impl From<Orders> for OrdersNumbers {
    fn from(orders: Orders) -> OrdersNumbers
        ensures ao { result.ao ≡ order_numbers orders.ao }
        ensures dout { result.dout ≡ discrete_order_numbers orders.dout }
    {
        OrdersNumbers {
            ao: OrderNumbers::from(orders.ao),
            dout: DiscreteOrderNumbers::from(orders.dout),
        }
    }
}

impl From<Result<Words, Refusal>> for ReadingNumbers {
    fn from(reading: Result<Words, Refusal>) -> ReadingNumbers
        ensures { result ≡ reading_numbers reading }
    {
        match reading {
            Ok(words) => ReadingNumbers {
                answer: 0,
                first: words.first,
                second: words.second,
            },
            Err(refusal) => ReadingNumbers {
                answer: refusal.number(),
                first: 0,
                second: 0,
            },
        }
    }
}

// The archive's version, that of the header it belongs to: major, minor and patch, a byte each.
#[unsafe(no_mangle)]
pub extern "C" fn serkoviu_version() -> u32
    ensures { result ≡ version }
{
    0x02_00_00
}

#[unsafe(no_mangle)]
pub extern "C" fn serkoviu_factory() -> Device
    ensures { result ≡ factory_device }
{
    Device::factory()
}

#[unsafe(no_mangle)]
pub extern "C" fn serkoviu_tick(
    d: &mut Device,
    fault: bool,
    ain: Pair,
    tot: Pair,
    di: Discrete,
) -> OrdersNumbers
    ensures { (result ≡ orders_numbers (tick_of d.old fault ain tot di)) × (d.new ≡ (tick_of d.old fault ain tot di).device) }
{
    OrdersNumbers::from(d.tick(fault, Fed { ain, tot, di }))
}

#[unsafe(no_mangle)]
pub extern "C" fn serkoviu_telegram(d: &mut Device, input: u8, bytes: &[u8]) -> u8
    ensures { (result ≡ answer_number (telegram_of d.old input bytes.now).answer) × (d.new ≡ (telegram_of d.old input bytes.now).device) }
{
    answer_number(d.telegram(input, bytes))
}

#[unsafe(no_mangle)]
pub extern "C" fn serkoviu_write(
    d: &mut Device,
    block: u8,
    parameter: u8,
    first: u32,
    second: u32,
) -> u8
    ensures { (result ≡ answer_number (write_of d.old block parameter first second).answer) × (d.new ≡ (write_of d.old block parameter first second).device) }
{
    answer_number(d.write(block, parameter, Words { first, second }))
}

#[unsafe(no_mangle)]
pub extern "C" fn serkoviu_load(d: &mut Device, bytes: &[u8]) -> u8
    ensures { (result ≡ answer_number (load_of d.old bytes.now).answer) × (d.new ≡ (load_of d.old bytes.now).device) }
{
    answer_number(d.load(bytes))
}

#[unsafe(no_mangle)]
pub extern "C" fn serkoviu_read(d: &Device, block: u8, parameter: u8) -> ReadingNumbers
    ensures { result ≡ reading_numbers (read_of d.now block parameter) }
{
    ReadingNumbers::from(d.read(block, parameter))
}

#[unsafe(no_mangle)]
pub extern "C" fn serkoviu_warm_start(d: &mut Device) -> u8
    ensures { (result ≡ 0) × (d.new ≡ warm_started d.old) }
{
    d.warm_start();
    0
}

#[unsafe(no_mangle)]
pub extern "C" fn serkoviu_image(d: &Device, buf: &mut [u8]) -> u8
    ensures value { result ≡ answer_number (image_answer buf.old) }
    ensures buf_after { buf.new ≡ image_bytes buf.old d.now.ain.state.out d.now.tot.state.out d.now.ao.state.out d.now.di.state.out d.now.dout.state.out }
{
    answer_number(d.image(buf))
}

#[unsafe(no_mangle)]
pub extern "C" fn serkoviu_total(d: &Device) -> i64
    ensures { result ≡ d.now.tot.state.total }
{
    d.total()
}

#[unsafe(no_mangle)]
pub extern "C" fn serkoviu_pack(d: &Device, buf: &mut [u8]) -> u8
    ensures value { result ≡ answer_number (pack_answer buf.old) }
    ensures buf_after { buf.new ≡ pack_bytes buf.old d.now }
    ensures d_value { unpacked_of (packed_of d.now) ≡ Ok d.now }
{
    answer_number(packing::pack(*d, buf))
}

#[unsafe(no_mangle)]
pub extern "C" fn serkoviu_unpack(d: &mut Device, bytes: &[u8]) -> u8
    ensures { (result ≡ unpacked_number (unpacked_of bytes.now)) × (d.new ≡ unpacked_into d.old (unpacked_of bytes.now)) }
{
    match packing::unpack(bytes) {
        Ok(device) => {
            *d = device;
            0
        }
        Err(reason) => reason.number(),
    }
}
