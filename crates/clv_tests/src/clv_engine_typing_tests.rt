//! Units that break a typing rule, and units that keep the rules.

use crate::clv_engine_front_tests::refused;
use clv_engine::front::first_form;

// A text, and its first offence: a code, a line and a column. Of each code there is a text, one in which two rules are broken
// at one node or seem to be, and one where an offence that is looked for later stands earlier.
type Refused<'a> = (&'a [u8], u16, u32, u32);

const FROM_301: [Refused<'static>; 28] = [
    // 301
    (b"int f(int x){return zz;}", 301, 1, 21),
    (
        b"__kernel void k(__global int*a){__global int*p;*p=1;a[0]=zz;}",
        301,
        1,
        58,
    ),
    (b"__kernel void k(__global int*a){a=&zz;}", 301, 1, 36),
    (
        b"__kernel void k(__global uint*a){b[get_global_id(0)]=0;}",
        301,
        1,
        34,
    ),
    // 302
    (b"__kernel void k(__global int*a){int a;}", 302, 1, 37),
    (b"__kernel void k(int x,bool x){}", 302, 1, 28),
    (
        b"void big(void){int x[1025];}__kernel void k(__global int*a){int x;int x;}",
        302,
        1,
        71,
    ),
    // 303
    (b"__kernel void k(__global int*a){void x;}", 303, 1, 38),
    (b"__kernel void k(void x,int y){}", 303, 1, 22),
    (
        b"__kernel void uns(void){int*p;p[0]=1;}\nstruct S{bool b;};",
        303,
        2,
        15,
    ),
    // 304
    (b"__kernel void k(__global int*a){int x[];}", 304, 1, 37),
    (b"__kernel void k(__global int*a){int x[]=a;}", 304, 1, 37),
    (
        b"__kernel void loc(__global int*a){__local int t[8193];}__kernel void k(__global int*a){int x[0];}",
        304,
        1,
        92,
    ),
    // 305
    (b"struct S;__kernel void k(__global int*a){}", 305, 1, 8),
    (
        b"__kernel void k(__global int*a){struct{int x;}S;struct S S;}",
        305,
        1,
        56,
    ),
    (
        b"int rec(int x){return rec(x);}__kernel void k(__global int*a){struct S s;}",
        305,
        1,
        70,
    ),
    // 306
    (b"__kernel void k(__global int*a){a.x=1;}", 306, 1, 34),
    (
        b"__kernel void k(__global int*a){a[0].xyzwx=1;}",
        306,
        1,
        37,
    ),
    (
        b"__kernel void k(__global int*a){int*q;q[0]=1;struct{int x;}s;s.y=1;}",
        306,
        1,
        63,
    ),
    // 307
    (b"__kernel void k(__global int*a){int3 v;v.lo;}", 307, 1, 41),
    (
        b"__kernel void k(__global int*a){int2 v;v[a]=1;}",
        307,
        1,
        41,
    ),
    (
        b"__kernel void k(__global int*a){__global int*p;a[0]=p[0];int2 v;v[2]=1;}",
        307,
        1,
        66,
    ),
    // 308
    (b"__kernel void k(__global int*a){-a;}", 308, 1, 33),
    (b"__kernel void k(__global int*a){a?a:1;}", 308, 1, 34),
    (
        b"__kernel void k(__global int*a){__global int*p;*p=1;a[0]=a==0;}",
        308,
        1,
        59,
    ),
    // 309
    (b"__kernel void k(__global int*a){char2 c;c+1;}", 309, 1, 42),
    (
        b"__kernel void k(__global int*a){char2 c;c?c:1;}",
        309,
        1,
        42,
    ),
    (
        b"__kernel void k(__global int*a){int*q;*q=1;char2 c;c|1;}",
        309,
        1,
        53,
    ),
];

const FROM_310: [Refused<'static>; 30] = [
    // 310
    (b"__kernel void k(__global int*a){1=2;}", 310, 1, 34),
    (
        b"__kernel void k(__global int*a){int x[2];5=x;}",
        310,
        1,
        43,
    ),
    (
        b"__kernel void k(__global int*a){__global int*p;p[1]=1;const int x=1;x=2;}",
        310,
        1,
        70,
    ),
    // 311
    (b"__kernel void k(__global int*a){a[0]=a;}", 311, 1, 37),
    (b"__kernel void k(__global int*a){(int4)(a,1);}", 311, 1, 33),
    (
        b"int rec(int x){return rec(x);}__kernel void k(__global int*a){a[0]=rec(2);a[1]=a;}",
        311,
        1,
        79,
    ),
    // 312
    (b"__kernel void k(__global int*a){&1;}", 312, 1, 33),
    (b"__kernel void k(__global int*a){&(a[0]?a:a);}", 312, 1, 33),
    (
        b"__kernel void k(__global int*a){int*p;*p=2;bool b;&b;}",
        312,
        1,
        51,
    ),
    // 313
    (b"__kernel void k(__global int*a){0[a];}", 313, 1, 34),
    (b"__kernel void k(__global int*a){1[a[0]]=2;}", 313, 1, 34),
    (
        b"__kernel void uns(void){int*p;p[0]=1;}__kernel void k(__global int*a){int x;*x;}",
        313,
        1,
        77,
    ),
    // 314
    (b"__kernel void k(__global int*a){a(1);}", 314, 1, 33),
    (
        b"__kernel void k(__global int*a){int k2;k2(a,a,a);}",
        314,
        1,
        40,
    ),
    (
        b"__kernel void k(__global int*a){int*p;int q=p[0];q();}",
        314,
        1,
        50,
    ),
    // 315
    (
        b"void f(void){}__kernel void k(__global int*a){f(1);}",
        315,
        1,
        47,
    ),
    (
        b"int f(int x,int y);__kernel void k(__global int*a){f(1);}",
        315,
        1,
        52,
    ),
    (
        b"int rec(int x){return rec(x);}__kernel void k(__global int*a){a[0]=rec(1,2);}",
        315,
        1,
        68,
    ),
    // 316
    (b"__kernel void k(__global int*a){k(a);}", 316, 1, 33),
    (
        b"__kernel void k(__global int*a);__kernel void m(__global int*a){k(a);}",
        316,
        1,
        65,
    ),
    (
        b"int rec(int x){return rec(x);}__kernel void k(__global int*a){a[0]=rec(1);}\n__kernel void m(__global int*a){k(a);}",
        316,
        2,
        33,
    ),
    // 317
    (
        b"int f(int x);__kernel void k(__global int*a){a[0]=f(1);}",
        317,
        1,
        51,
    ),
    (
        b"int f(__global int*p);__kernel void k(__global int*a){int x;a[0]=f(&x);}",
        317,
        1,
        66,
    ),
    (
        b"int rec(int x){return rec(x);}int f(int x);__kernel void k(__global int*a){a[0]=f(rec(1));}",
        317,
        1,
        81,
    ),
    // 318
    (b"__kernel void k(__global int*a){for(;a;);}", 318, 1, 33),
    (
        b"__kernel void k(__global int*a){int2 v;v?1:(2,3);}",
        318,
        1,
        41,
    ),
    (
        b"__kernel void k(__global int*a){int*p;if(*p)a[0]=1;int2 v;while(v);}",
        318,
        1,
        59,
    ),
    // 319
    (b"__kernel void k(__global int*a){break;}", 319, 1, 33),
    (
        b"int rec(int x){return rec(x);}__kernel void k(__global int*a){break;}",
        319,
        1,
        63,
    ),
    (b"__kernel void k(__global int*a){break;zz;}", 319, 1, 33),
];

const FROM_320: [Refused<'static>; 30] = [
    // 320
    (
        b"__kernel void k(__global int*a){switch(a[0]){case (1,2):;}}",
        320,
        1,
        46,
    ),
    (
        b"__kernel void k(__global int*a){int*p;p[0]=1;switch(a[0]){case a[0]:;}}",
        320,
        1,
        59,
    ),
    (
        b"__kernel void k(__global int*a){switch(a){case 1:;case 1:;}}",
        320,
        1,
        51,
    ),
    // 321
    (
        b"__kernel void k(__global int*a){switch(a[0]){default:default:;}}",
        321,
        1,
        54,
    ),
    (
        b"__kernel void k(__global int*a){switch(a[0]){default:break;default:a[0]=1;case 1:;}}",
        321,
        1,
        60,
    ),
    (
        b"__kernel void shp(void){struct{int x,y;}s;int*p=&s.x;p=&s.y;}\n  __kernel void k(__global int*a){switch(a[0]){default:default:;}}",
        321,
        2,
        56,
    ),
    // 322
    (
        b"__kernel void k(__global int*a){switch(a[0]){default:;case 1:;}}",
        322,
        1,
        46,
    ),
    (
        b"__kernel void k(__global int*a){switch(a[0]){case 0:;default:;case 1:;}}",
        322,
        1,
        54,
    ),
    (
        b"__kernel void k(__global int*a){int*p;*p=1;switch(a[0]){case 1:;default:break;case 2:;}}",
        322,
        1,
        65,
    ),
    // 323
    (b"__kernel void k(__global int*a){return a;}", 323, 1, 33),
    (
        b"void f(int2 v){return v;}__kernel void k(__global int*a){}",
        323,
        1,
        16,
    ),
    (
        b"int rec(int x){return rec(x);}int f(int x){rec(x);return;}__kernel void k(__global int*a){}",
        323,
        1,
        51,
    ),
    // 324
    (b"__kernel void k(__global int*a){int x={1,2};}", 324, 1, 39),
    (
        b"__kernel void k(__global int*a){int x={{1},2};}",
        324,
        1,
        39,
    ),
    (
        b"void big(void){int x[1025];}__kernel void k(__global int*a){int x[2]={1,2,3};}",
        324,
        1,
        70,
    ),
    // 325
    (
        b"__constant int x;__kernel void k(__global int*a){}",
        325,
        1,
        16,
    ),
    (
        b"__constant int c=1;__constant int x[][9000]={{c},{1}};__kernel void k(__global int*a){}",
        325,
        1,
        35,
    ),
    (
        b"int rec(int x){return rec(x);}__constant int x;__kernel void k(__global int*a){}",
        325,
        1,
        46,
    ),
    // 326
    (b"__kernel void k(__local int x){}", 326, 1, 29),
    (b"__kernel void k(__local bool x){}", 326, 1, 30),
    (
        b"__kernel void k(__global int*a){int*p;*p=1;{__local int t;}}",
        326,
        1,
        57,
    ),
    // 327
    (b"__kernel void k(int*a){}", 327, 1, 21),
    (
        b"__kernel void k(int x);__kernel int k(int x){return x;}",
        327,
        1,
        37,
    ),
    (
        b"int rec(int x){return rec(x);}__kernel void k(bool b){}",
        327,
        1,
        52,
    ),
    // 328
    (
        b"__kernel __attribute__((reqd_work_group_size))void k(__global int*a){}",
        328,
        1,
        25,
    ),
    (
        b"__kernel __attribute__((reqd_work_group_size(0,2000)))void k(__global int*a){}",
        328,
        1,
        25,
    ),
    (
        b"int rec(int x){return rec(x);}__kernel __attribute__((reqd_work_group_size(0,1,1)))void k(__global int*a){}",
        328,
        1,
        55,
    ),
    // 329
    (b"__kernel void k(__global int*a){abs(a);}", 329, 1, 33),
    (
        b"__kernel void k(__global int*a){barrier(0,1);}",
        329,
        1,
        33,
    ),
    (
        b"__kernel void k(__global int*a){int*p;*p=1;clz();}",
        329,
        1,
        44,
    ),
];

const FROM_330: [Refused<'static>; 26] = [
    // 330
    (b"__kernel void k(__global int*a){barrier(0);}", 330, 1, 33),
    (
        b"__kernel void k(__global int*a){barrier(a[0]*0+4);}",
        330,
        1,
        33,
    ),
    (
        b"int rec(int x){return rec(x);}\n\n  __kernel void k(__global int*a){mem_fence(rec(1));}",
        330,
        3,
        35,
    ),
    // 331
    (
        b"__kernel void k(__global int*a){(int2)(1,2,3);}",
        331,
        1,
        33,
    ),
    (
        b"__kernel void k(__global int*a){int2 v;(int4)(v,v,v,v);}",
        331,
        1,
        40,
    ),
    (
        b"__kernel void k(__global int*a){int*p;*p=1;(short3)(1,2);}",
        331,
        1,
        44,
    ),
    // 332
    (
        b"void f(void);int f(void);__kernel void k(__global int*a){}",
        332,
        1,
        18,
    ),
    (
        b"int f(int x){return 1;}uint f(int x){return 1;}__kernel void k(__global int*a){}",
        332,
        1,
        29,
    ),
    (
        b"int rec(int x){return rec(x);}int rec(uint x);__kernel void k(__global int*a){}",
        332,
        1,
        35,
    ),
    // 333
    (b"__kernel void k(__global int*a){int*p=a;}", 333, 1, 37),
    (
        b"__kernel void k(__global int*a){const uint x=1;__global int*p=&x;}",
        333,
        1,
        61,
    ),
    (
        b"__kernel void k(__global int*a){int*q;q[0]=1;int*p;p=a;}",
        333,
        1,
        53,
    ),
    // 334
    (b"__kernel void k(__global int*a){int x[1/0];}", 334, 1, 40),
    (
        b"__kernel void k(__global int*a){int x[1/0-1];}",
        334,
        1,
        40,
    ),
    (
        b"__kernel void k(__global int*a){int*p;*p=1;switch(a[0]){case 7%0:;}}",
        334,
        1,
        63,
    ),
    // 335
    (b"typedef int T;", 335, 1, 1),
    (b"void big(void){int x[1025];}", 335, 1, 1),
    // 501
    (
        b"__kernel void k(__global int*a){int x[16385];}",
        501,
        1,
        37,
    ),
    (
        b"__kernel void k(__global int*a){char x[65537][1][1][1][1][1][1][1][1][1][1][1][1][1][1][1][1];}",
        501,
        1,
        38,
    ),
    (
        b"int rec(int x){return rec(x);}__kernel void k(__global int*a){int x[16385];}",
        501,
        1,
        67,
    ),
    // 502
    (
        b"__kernel void k(__global int*a){int2 v[1][1][1][1][1][1][1][1][1][1][1][1][1][1][1];}",
        502,
        1,
        38,
    ),
    (
        b"__constant int x[1][1][1][1][1][1][1][1][1][1][1][1][1][1][1][1];__kernel void k(__global int*a){}",
        502,
        1,
        16,
    ),
    (
        b"__kernel void uns(void){int*p;p[0]=1;}__kernel void k(__global int*a){int x[1][1][1][1][1][1][1][1][1][1][1][1][1][1][1][1];}",
        502,
        1,
        75,
    ),
    // 504
    (
        b"void f(int,int,int,int,int,int,int,int,int,int,int,int,int,int,int,int,int,int,int,int,int,int,int,int,int,int,int,int,int,int,int,int,int);__kernel void k(__global int*a){}",
        504,
        1,
        136,
    ),
    (
        b"int rec(int x){return rec(x);}void f(int,int,int,int,int,int,int,int,int,int,int,int,int,int,int,int,int,int,int,int,int,int,int,int,int,int,int,int,int,int,int,int,int);__kernel void k(__global int*a){}",
        504,
        1,
        166,
    ),
    (
        b"int f(int,int,int,int,int,int,int,int,int,int,int,int,int,int,int,int,int,int,int,int,int,int,int,int,int,int,int,int,int,int,int,int,int,bool*);__kernel void k(__global int*a){}",
        504,
        1,
        135,
    ),
];

// Each stands beside the rule of a code.
const KEPT: [&[u8]; 37] = [
    // 301
    b"__kernel void k(__global int*a){int x=x;a[0]=x;}",
    // 302
    b"__kernel void k(__global int*a){{int a=1;}}",
    // 303
    b"__kernel void k(){}",
    // 304
    b"__kernel void k(__global int*a){int x[-1/2+1]={1};a[0]=x[0];}",
    // 305
    b"__kernel void k(__global int*a){a[0]=sizeof(struct S{int x;});struct S s={1};a[1]=s.x;}",
    // 306
    b"__kernel void k(__global int*a){struct S{int x;}s[2]={{1},{2}};a[0]=s->x+(s+1)->x;}",
    // 307
    b"__kernel void k(__global int*a){int3 v=1;a[0]=v.z+v.s2+v[2];}",
    // 308
    b"__kernel void k(__global int*a){bool b=1;b<<=1;b=b/2;a[0]=b;}",
    // 309
    b"__kernel void k(__global int*a){long2 v=1;v=v+1;v=v|1ul;v<<=1;a[0]=v.x;}",
    // 310
    b"__kernel void k(__global int*a){(a[0]?a:a+1)[0]=1;*(a+1)=2;}",
    // 311
    b"__kernel void k(__global int*a){int2 v=(int2)3L;v=(int2)(3L);a[0]=v.x;}",
    // 312
    b"__kernel void k(__global int*a){int2 v=1;int2*p=&v;a[0]=(*p).x;}",
    // 313
    b"__kernel void k(__global int*a){int2 v=1;a[0]=v[1];}",
    // 314
    b"int f(int x){return x;}int g(int x){return f(x);}__kernel void k(__global int*a){int f=1;a[0]=f;{a[1]=f+g(1);}}",
    // 315
    b"void f(void){}__kernel void k(__global int*a){f();}",
    // 316
    b"void f(__global int*a){a[0]=1;}__kernel void k(__global int*a){f(a);}__kernel void m(__global int*a){f(a);}",
    // 317
    b"int f(int x);int unused(int x);__kernel void k(__global int*a){a[0]=f(1);}int f(int x){return x;}",
    // 318
    b"__kernel void k(__global int*a){int2 v=1;a[0]=v.x?1:2;if((v==1).x)a[0]=2;}",
    // 319
    b"__kernel void k(__global int*a){do{for(;;){break;}continue;}while(0);}",
    // 320
    b"__kernel void k(__global int*a){switch(a[0]){case (bool)3:;case 2:;}}",
    // 321
    b"__kernel void k(__global int*a){switch(a[0]){default:switch(a[1]){default:;}}}",
    // 322
    b"__kernel void k(__global int*a){switch(a[0]){case 0:;default:;}}",
    // 323
    b"void f(void){return;}int g(int x){if(x)return 1;}__kernel void k(__global int*a){f();g(1);return;}",
    // 324
    b"__kernel void k(__global int*a){__global int*p={a};int x[1]={{1}};a[0]=*p+x[0];}",
    // 325
    b"__constant int x=(bool)7,y=!0,z=1<2,w=~0u,v=-(-1);__kernel void k(__global int*a){}",
    // 326
    b"constant int x=1;__kernel void k(__global int*a){constant int*p=&x;a[0]=*p;}",
    // 327
    b"kernel void k(void){}",
    // 328
    b"__kernel __attribute__((reqd_work_group_size(4,8,32)))void k(__global int*a){}",
    // 330
    b"__kernel void k(__global int*a){barrier(1);barrier(2);barrier(3);mem_fence(1|2);read_mem_fence(2u);write_mem_fence(1L);barrier((bool)5);}",
    // 331
    b"__kernel void k(__global int*a){int4 w=(int4)1;w=(int4)w;uchar4 c=(uchar4)(1,2,3,4);bool b=1;w=(int4)(b,b,b,b);a[0]=w.x+c.x;}",
    // 332
    b"__kernel void k(__global int*a);__kernel void k(__global int*a){}",
    // 333
    b"__kernel void k(__global int*a){int m[2][2]={1};int*p=m[1];a[0]=*p;}",
    // 334
    b"__kernel void k(__global int*a){int x[7/2-7%2]={1};a[0]=x[1];}",
    // 335
    b"__kernel void k(void){}",
    // 501
    b"__kernel void k(__global int*a){a[0]=sizeof(struct{int x[16384];});}",
    // 502
    b"typedef int2 A[1][1][1][1][1][1][1][1][1][1][1][1][1][1];__kernel void k(__global int*a){a[0]=sizeof(A);}",
    // 504
    b"__kernel void k(__global int*a,int p0,int p1,int p2,int p3,int p4,int p5,int p6,int p7,int p8,int p9,int p10,int p11,int p12,int p13,int p14,int p15,int p16,int p17,int p18,int p19,int p20,int p21,int p22,int p23,int p24,int p25,int p26,int p27,int p28,int p29,int p30){a[0]=p30;}",
];

#[test]
fn refuses_from_301_on(rt: HostRuntime) {
    for (text, code, line, col) in FROM_301 {
        assert_eq!(rt;
            first_form(rt.alloc(), text).err(),
            refused(code, line, col)
        );
    }
}

#[test]
fn refuses_from_310_on(rt: HostRuntime) {
    for (text, code, line, col) in FROM_310 {
        assert_eq!(rt;
            first_form(rt.alloc(), text).err(),
            refused(code, line, col)
        );
    }
}

#[test]
fn refuses_from_320_on(rt: HostRuntime) {
    for (text, code, line, col) in FROM_320 {
        assert_eq!(rt;
            first_form(rt.alloc(), text).err(),
            refused(code, line, col)
        );
    }
}

#[test]
fn refuses_from_330_on(rt: HostRuntime) {
    for (text, code, line, col) in FROM_330 {
        assert_eq!(rt;
            first_form(rt.alloc(), text).err(),
            refused(code, line, col)
        );
    }
}

#[test]
fn types_units(rt: HostRuntime) {
    for text in KEPT {
        assert_eq!(rt; first_form(rt.alloc(), text).err(), refused(900, 1, 1));
    }
}
